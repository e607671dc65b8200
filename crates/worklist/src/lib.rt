// The loop over what is pending, lowest number first, and the full analysis of a decoded program by it.
#![tactic(auto)]

pub mod pending;
pub mod run;

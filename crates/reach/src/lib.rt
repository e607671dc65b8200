// Configurations and their numbers. The marks themselves are definitions here; the analysis works them.
#![tactic(auto)]

pub mod configuration;
pub mod parts;
pub mod spans;
pub mod split;

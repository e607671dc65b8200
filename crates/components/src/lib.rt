// The inside-out repair of the marks after a drop, component by component, callees first.
#![tactic(auto)]

pub mod drop;

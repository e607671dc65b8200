// The call graph of a program: which routine leads to which, the components and their order; and sets of routines.
#![tactic(auto)]

pub mod flags;
pub mod graph;
pub mod routines;

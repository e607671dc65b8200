// Marks are closed under the steps of a program: what follows from marks that are there is marked, by a part of the
// table of edges, or by all of them once new ones were added.
#![tactic(auto)]

pub mod exits;
pub mod grow;
pub mod part;

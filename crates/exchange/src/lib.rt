// Exchanges of a whole routine: the program after one, and the lengths of its buffers.
#![tactic(auto)]

pub mod apply;
pub mod lengths;

use program::edges::Edges;

// A routine has so many nodes now and, for its old edges, these.
#[derive(Clone, Copy)]
pub struct DecodedExchange {
    pub routine: u8,
    pub nodes: u8,
    pub edges: Edges,
}

// Where the parts of an index begin: the first edges from each node are at its start.
use program::sizes::{MAX_EDGES, MAX_NODES, MAX_ROUTINES};

// The first edge that calls each routine.
pub const FIRST_CALLERS: usize = MAX_ROUTINES * MAX_NODES;

// For each edge the next one from the same node.
pub const NEXT_EDGES: usize = FIRST_CALLERS + MAX_ROUTINES;

// For each edge that calls the next one that calls the same routine.
pub const NEXT_CALLERS: usize = NEXT_EDGES + MAX_EDGES;

pub const INDEX_SIZE: usize = NEXT_CALLERS + MAX_EDGES;

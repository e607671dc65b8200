// The table of edges, the keys that they are kept as, and the labels that call: nothing else makes an edge's key or
// takes one apart.
ghost use Rattle.std.specs.Prelude.{◌≡◌, true, [], ℕ, ◌≤◌, ◌<◌};
ghost use Rattle.program.specs.Program.{is_call, called_by};
ghost use Rattle.program.specs.Decoded.{edge_keys_of, edge_of, edge_view};

use crate::frames::pack;
use crate::sizes::MAX_EDGES;
use automaton::sizes::FIRST_CALL;

// The keys of edges, ascending: the first `count` are in use.
#[derive(Clone, Copy)]
pub struct Edges {
    pub count: usize,
    pub keys: [u32; MAX_EDGES],
}

// An edge as its key says it.
#[derive(Clone, Copy)]
pub struct DecodedEdge {
    pub routine: u8,
    pub source: u8,
    pub label: u8,
    pub target: u8,
}

pub fn no_edges() -> Edges
    ensures { edge_keys_of result ≡ [] }
{
    let keys = [0u32; MAX_EDGES];
    Edges { count: 0, keys }
}

// The key of an edge.
pub fn edge_key(routine: u8, source: u8, label: u8, target: u8) -> u32
    ensures { edge_of result ≡ record { routine = routine; source = source; label = label; target = target } }
{
    pack(routine, source, label, target)
}

// The parts of an edge's key.
pub fn edge(key: u32) -> DecodedEdge
    ensures { edge_view result ≡ edge_of key }
{
    let [routine, source, label, target] = key.to_be_bytes();
    DecodedEdge {
        routine,
        source,
        label,
        target,
    }
}

// Where the keys of the edges of routine f begin: those below it are of the routines below f.
pub fn first_key(f: u32) -> u64
    ensures { (k : ℕ) → (k < result → (edge_of k).routine < f) × (result ≤ k → f ≤ (edge_of k).routine) }
{
    u64::from(f) * 0x1000000
}

// Whether the label of an edge is that of a call.
pub fn is_call(label: u8) -> bool
    ensures { result ≡ is_call label }
{
    FIRST_CALL <= label
}

// The routine that a label calls. The label of an action calls none: hence the `requires`.
pub fn called_by(label: u8) -> u8
    requires { is_call label ≡ true }
    ensures { result ≡ called_by label }
{
    label - FIRST_CALL
}

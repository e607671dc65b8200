// The program of a file, decoded: counts, nodes, edges and the automaton, by value.
#![tactic(auto)]

pub mod chosen;
pub mod edges;
pub mod frames;
pub mod refusal;
pub mod sizes;

ghost use Rattle.std.specs.Prelude.{◌≡◌};
ghost use Rattle.program.specs.Program.{no_program};
ghost use Rattle.program.specs.Decoded.{program_of};

use automaton::transitions::no_transitions;
use automaton::{DecodedAutomaton, no_states};
use edges::{Edges, no_edges};
use sizes::MAX_ROUTINES;

// How many nodes each routine has: the first `count` are in use.
#[derive(Clone, Copy)]
pub struct Nodes {
    pub count: usize,
    pub list: [u8; MAX_ROUTINES],
}

// The decoded program.
#[derive(Clone, Copy)]
pub struct DecodedProgram {
    pub routines: u8,
    pub nodes: Nodes,
    pub edges: Edges,
    pub automaton: DecodedAutomaton,
}

pub fn no_program() -> DecodedProgram
    ensures { program_of result ≡ no_program }
{
    let nodes = Nodes {
        count: 0,
        list: [0u8; MAX_ROUTINES],
    };
    let edges = no_edges();
    let transitions = no_transitions();
    let initial = no_states();
    let rejecting = no_states();
    let automaton = DecodedAutomaton {
        states: 0,
        actions: 0,
        transitions,
        initial,
        rejecting,
    };
    DecodedProgram {
        routines: 0,
        nodes,
        edges,
        automaton,
    }
}

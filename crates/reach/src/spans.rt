// The sizes of what is kept of configurations, beside the marks.
ghost use Rattle.std.specs.Prelude.{◌≡◌, ◌<◌, ◌^◌};
ghost use Rattle.reach.specs.Parts.{SpansOf};
ghost use Rattle.reach.specs.Sizes.{node_span, routine_span, summaries, enough_iterations};

use automaton::sizes::MAX_STATES;
use program::sizes::{MAX_ROUTINES, Sizes, length_of, with_digit};

// A flag for each root: its routine and its state, whatever the sizes.
pub const ROOTS_SIZE: usize = MAX_ROUTINES * MAX_STATES;

// How many numbers follow one another at a node.
pub fn node_span(z: Sizes) -> usize
    ensures { (result ≡ node_span z) × (result < 2 ^ 16) }
{
    with_digit(z.states as usize, z.states, 0)
}

// How many numbers follow one another in a routine.
pub fn routine_span(z: Sizes) -> usize
    ensures { (result ≡ routine_span z) × (result < 2 ^ 24) }
{
    with_digit(node_span(z), z.nodes, 0)
}

// Both, for whoever needs them often.
#[derive(Clone, Copy)]
pub struct Spans {
    pub node: usize,
    pub routine: usize,
}

pub fn spans_of(z: Sizes) -> Spans
    ensures { SpansOf z result }
{
    let node = node_span(z);
    let routine = routine_span(z);
    Spans { node, routine }
}

// How many summaries there are.
pub fn summary_count(z: Sizes) -> usize
    ensures { (result ≡ summaries z) × (result < 2 ^ 24) }
{
    let a = with_digit(z.routines as usize, z.states, 0);
    with_digit(a, z.states, 0)
}

// So many iterations are always enough: no configuration is taken more than once, and once more for each summary.
pub fn enough_iterations(z: Sizes) -> usize
    ensures { result ≡ enough_iterations z }
{
    length_of(z) * (1 + summary_count(z))
}

// After edges were added to a program, what follows by them is marked. What was marked before is closed under the edges
// that were there, so that only the configurations at the nodes that the new edges lead from can lead to something new.
// Their numbers follow one another, and only they are taken at the start; from any other marks what follows elsewhere
// would be missed: hence each `requires`.
ghost use Rattle.std.specs.Prelude.{◌+◌, ◌*◌, ◌≤◌, ◌<◌};
ghost use Rattle.program.specs.Chosen.{numbers};
ghost use Rattle.program.specs.WellFormed.{WellFormed};
ghost use Rattle.program.specs.Decoded.{program_of};
ghost use Rattle.reach.specs.Sizes.{node_span, routine_span};
ghost use Rattle.reach.specs.Configurations.{number};
ghost use Rattle.reach.specs.Ranged.{Sized};
ghost use Rattle.reach.specs.Reachable.{Derivable, Any};
ghost use Rattle.reach.specs.Marks.{Marked, Shows, ClosedBut};

use crate::part::follow_part;
use automaton::next::next_states;
use program::DecodedProgram;
use program::sizes::{MAX_EDGES, Sizes};
use reach::configuration::number_of;
use reach::spans::{node_span, routine_span};
use tables::in_use;

// What follows by all edges of a program, once some were added at the numbers from low up to high.
fn follow_between(z: Sizes, p: DecodedProgram, low: usize, high: usize, marks: &mut [u8])
    requires well_formed { WellFormed (program_of p) × Sized z (program_of p) × (high ≤ numbers z) }
    requires closed_but { ClosedBut z (program_of p) low high marks.old }
    ensures { Shows z (Derivable (program_of p) (Marked z marks.old) Any) marks.new }
{
    let rule = p.automaton;
    let edges = p.edges;
    let keys = edges.keys;
    let table = next_states(rule, p.routines);
    let next = table.sets;
    let count = in_use(edges.count, MAX_EDGES);
    follow_part(z, &keys[..count], &next, marks, low, high);
}

// Once edges were added that lead from node n of routine f.
pub fn follow_added(z: Sizes, p: DecodedProgram, f: u8, n: u8, marks: &mut [u8])
    requires well_formed { WellFormed (program_of p) × Sized z (program_of p) × (f < z.routines) × (n < z.nodes) }
    requires closed_but { ClosedBut z (program_of p) (number z f n 0 0) (number z f n 0 0 + node_span z) marks.old }
    ensures { Shows z (Derivable (program_of p) (Marked z marks.old) Any) marks.new }
{
    let low = number_of(z, f, n, 0, 0);
    follow_between(z, p, low, low + node_span(z), marks);
}

// Once edges were added anywhere in routine f.
pub fn follow_routine(z: Sizes, p: DecodedProgram, f: u8, marks: &mut [u8])
    requires well_formed { WellFormed (program_of p) × Sized z (program_of p) × (f < z.routines) }
    requires closed_but { ClosedBut z (program_of p) (f * routine_span z) (f * routine_span z + routine_span z) marks.old }
    ensures { Shows z (Derivable (program_of p) (Marked z marks.old) Any) marks.new }
{
    let low = number_of(z, f, 0, 0, 0);
    follow_between(z, p, low, low + routine_span(z), marks);
}

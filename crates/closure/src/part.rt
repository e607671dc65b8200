// What follows by the edges of a part of the table of edges.
ghost use Rattle.std.specs.Prelude.{◌≡◌, not, ◌&&◌, ◌≤◌, ◌<◌, eqb, length};
ghost use Rattle.program.specs.Chosen.{numbers, Admitted};
ghost use Rattle.program.specs.Program.{Program};
ghost use Rattle.reach.specs.Configurations.{Usable, node_of};
ghost use Rattle.reach.specs.Reachable.{Derivable, Any};
ghost use Rattle.reach.specs.Marks.{Marked, Shows};
ghost use Rattle.closure.specs.Parts.{Awaited, Followable};

use crate::exits::summaries_of;
use index::index_of;
use marking::PENDING_WORDS;
use program::sizes::Sizes;
use reach::configuration::parts_of;
use reach::spans::enough_iterations;
use words::set_at;
use worklist::pending::follow_pending;

// The node of an exit.
const EXIT: u8 = 1;

// What is pending, a bit for each configuration.
#[derive(Clone, Copy)]
pub struct Pending {
    pub words: [u64; PENDING_WORDS],
}

// Whether a number with this mark is to be taken at the start: where it is marked, and no exit.
fn is_first(z: Sizes, mark: u8, i: usize) -> bool
    requires { Usable z × (i < numbers z) }
    ensures { result ≡ not (eqb (node_of z i) 1) && not (eqb mark 0) }
{
    let c = parts_of(z, i);
    c.node != EXIT && mark != 0
}

// The marked configurations of the numbers from low up to high are pending, but for the exits: these are known. Nothing
// else is.
fn await_between(z: Sizes, marks: &[u8], low: usize, high: usize) -> Pending
    requires { Usable z × Admitted z × (length marks.now ≡ numbers z) × (high ≤ numbers z) }
    ensures { Awaited z low high marks.now result.words }
{
    let mut words = [0u64; PENDING_WORDS];
    for i in low..high {
        if is_first(z, marks[i], i) {
            set_at(&mut words, i);
        }
    }
    Pending { words }
}

// What follows from the marks by these edges is marked. Of the marked configurations only those of the numbers from low
// up to high are taken at the start, so that whoever knows where something new can follow pays for no others. Were
// something to follow from the rest, it would be missed: hence the `requires`.
pub fn follow_part(z: Sizes, steps: &[u32], next: &[u16], marks: &mut [u8], low: usize, high: usize)
    requires high_bound { high ≤ numbers z }
    requires followable { (p : Program) × Followable z p steps.now next.now low high marks.old }
    ensures { (p : Program)
        → Followable z p steps.now next.now low high marks.old
        → Shows z (Derivable p (Marked z marks.old) Any) marks.new }
{
    let edges = index_of(steps);
    let index = edges.places;
    let exits = summaries_of(z, marks);
    let mut known = exits.words;
    let awaited = await_between(z, marks, low, high);
    let mut pending = awaited.words;
    let limit = enough_iterations(z);
    let _iterations = follow_pending(
        z,
        steps,
        &index,
        next,
        marks,
        &mut pending,
        &mut known,
        low,
        limit,
    );
}

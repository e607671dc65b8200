// What is pending is followed, lowest number first, until nothing is or a limit is reached.
ghost use Rattle.std.specs.Prelude.{◌≡◌, length};
ghost use Rattle.program.specs.Chosen.{Admitted};
ghost use Rattle.program.specs.Program.{Program};
ghost use Rattle.program.specs.WellFormed.{WellFormed};
ghost use Rattle.program.specs.Decoded.{program_of};
ghost use Rattle.reach.specs.Configurations.{Usable};
ghost use Rattle.reach.specs.Ranged.{Sized};
ghost use Rattle.reach.specs.Worklist.{Shape};
ghost use Rattle.words.specs.Words.{flags_of, NoneBelow};
ghost use Rattle.marking.specs.Parts.{pending_words, worklist};
ghost use Rattle.worklist.specs.Parts.{followed, Begun};

use automaton::next::next_states;
use index::index_of;
use iteration::take;
use program::DecodedProgram;
use program::sizes::{MAX_EDGES, Sizes};
use reach::split::reciprocals_of;
use tables::in_use;
use words::first_set;

// Takes the lowest pending configuration while there is one and the limit allows, and returns the count of iterations.
// It starts from any marks, so that `follow_part` can use it too: hence the `requires`.
pub fn follow_pending(
    z: Sizes,
    keys: &[u32],
    index: &[u16],
    next: &[u16],
    marks: &mut [u8],
    pending: &mut [u64],
    known: &mut [u64],
    from: usize,
    limit: usize,
) -> usize
    requires usable { Usable z × Admitted z × (length pending.old ≡ pending_words)
        × NoneBelow (flags_of pending.old) from }
    requires begun { (p : Program) × Begun z p keys.now index.now next.now marks.old pending.old known.old }
    ensures { (p : Program) → Begun z p keys.now index.now next.now
        marks.old pending.old known.old
        → worklist z marks.new pending.new known.new result
        ≡ followed z limit p marks.old pending.old known.old }
{
    let by = reciprocals_of(z);
    let size = marks.len();
    let mut iterations: usize = 0;
    let mut at = first_set(pending, from);
    while at < size && iterations < limit {
        let low = take(z, by, keys, index, next, marks, pending, known, at);
        iterations += 1;
        at = first_set(pending, low);
    }
    iterations
}

// The same for a decoded program: the index of its edges and the table of its automaton are made once. It starts from
// any marks: hence the `requires`.
pub fn follow_program(
    z: Sizes,
    p: DecodedProgram,
    marks: &mut [u8],
    pending: &mut [u64],
    known: &mut [u64],
    limit: usize,
) -> usize
    requires { WellFormed (program_of p) × Sized z (program_of p) × (length pending.old ≡ pending_words)
        × Shape z (worklist z marks.old pending.old known.old 0) }
    ensures { worklist z marks.new pending.new known.new result
        ≡ followed z limit (program_of p) marks.old pending.old known.old }
{
    let rule = p.automaton;
    let edges = p.edges;
    let keys = edges.keys;
    let count = in_use(edges.count, MAX_EDGES);
    let table = next_states(rule, p.routines);
    let next = table.sets;
    let steps = &keys[..count];
    let chained = index_of(steps);
    let index = chained.places;
    follow_pending(z, steps, &index, &next, marks, pending, known, 0, limit)
}

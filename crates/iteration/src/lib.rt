// One iteration: the configuration of a number is taken.
#![tactic(auto)]

ghost use Rattle.std.specs.Prelude.{◌≡◌, ℕ, ◌<◌, ◌+◌};
ghost use Rattle.index.specs.Index.{Indexed};
ghost use Rattle.program.specs.Chosen.{numbers, Admitted};
ghost use Rattle.program.specs.Program.{Program};
ghost use Rattle.reach.specs.Configurations.{Usable};
ghost use Rattle.reach.specs.SplitParts.{Splits};
ghost use Rattle.reach.specs.Worklist.{take_one};
ghost use Rattle.words.specs.Words.{flags_of, NoneBelow};
ghost use Rattle.marking.specs.Parts.{worklist};
ghost use Rattle.iteration.specs.Parts.{Tables};

use callers::wake_callers;
use program::sizes::Sizes;
use reach::configuration::summary_of;
use reach::split::{Reciprocals, parts_by};
use successors::follow_edges;
use words::{clear_at, set_at};

// At an exit its summary is known and its callers become pending; elsewhere its edges are followed. Returns a number
// below which nothing is pending, if the one that is taken was the lowest. The number has parts, and the index has a
// place for each node of the sizes: hence the `requires`. The reciprocals of the sizes are made once for all numbers.
pub fn take(
    z: Sizes,
    by: Reciprocals,
    keys: &[u32],
    index: &[u16],
    next: &[u16],
    marks: &mut [u8],
    pending: &mut [u64],
    known: &mut [u64],
    i: usize,
) -> usize
    requires { Usable z × Admitted z × (i < numbers z) × Indexed keys.now index.now
        × Splits z by.root by.node by.routine }
    ensures taken { (p : Program) → Tables z p keys.now index.now next.now
        → (n : ℕ) → worklist z marks.new pending.new known.new (n + 1)
        ≡ take_one z p i (worklist z marks.old pending.old known.old n) }
    ensures lowest { NoneBelow (flags_of pending.old) i
        → NoneBelow (flags_of pending.new) result }
{
    let c = parts_by(z, by, i);
    clear_at(pending, i);
    if c.node == 1 {
        let place = summary_of(z, c.routine, c.root, c.state);
        set_at(known, place);
        return wake_callers(
            z,
            keys,
            index,
            next,
            marks,
            pending,
            c.routine,
            c.root,
            i + 1,
        );
    }
    follow_edges(z, keys, index, next, known, marks, pending, c, i + 1)
}

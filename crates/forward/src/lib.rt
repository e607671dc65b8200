// The forward repair of the marks: an add lets the new edge act and follows what is newly marked; a drop keeps what
// still has support, whatever the marks are; a replace is the drop and then the add; an exchange is the drop of all
// edges of the routine, in the sizes before, and then the add of all new ones, in sizes that hold both programs. The
// changes that come here were not refused (12 to 16, 21), the buffers have their lengths (9 and 11), and but for a drop
// the marks must be the program's own (17): hence each `requires`.
#![tactic(auto)]

ghost use Rattle.std.specs.Prelude.{◌≡◌, length};
ghost use Rattle.program.specs.Chosen.{sizes_of, numbers};
ghost use Rattle.program.specs.WellFormed.{WellFormed};
ghost use Rattle.program.specs.Decoded.{program_of};
ghost use Rattle.edit.specs.Editing.{edited_program, Applies};
ghost use Rattle.edit.specs.declared.Edit.TheVariants.{Add, Drop};
ghost use Rattle.exchange.specs.Changing.{emptied, exchanged_program};
ghost use Rattle.exchange.specs.Wanted.{Fits};
ghost use Rattle.exchange.specs.Decoded.{exchange_of};
ghost use Rattle.reach.specs.Configurations.{none_set};
ghost use Rattle.reach.specs.Ranged.{Sized};
ghost use Rattle.reach.specs.Marks.{Shows, fresh_at};
ghost use Rattle.prune.specs.Pruning.{Kept};
ghost use Rattle.forward.specs.Parts.{Keeps, Repaired, LentForward, MendedForward};

use base::flags::clear;
use closure::grow::{follow_added, follow_routine};
use edit::apply::{relabelled, with_step, without_step};
use edit::{Edit, Step};
use exchange::DecodedExchange;
use exchange::apply::{exchanged, without_routine};
use program::DecodedProgram;
use program::sizes::Sizes;
use prune::prune_program;

pub fn add_step(
    z: Sizes,
    p: DecodedProgram,
    s: Step,
    marks: &mut [u8],
    work: &mut [u8],
) -> DecodedProgram
    requires well_formed { WellFormed (program_of p) × Applies (Add s) (program_of p) × (z ≡ sizes_of (program_of p)) }
    requires marks_value { (marks.old ≡ fresh_at z (program_of p)) × (length work.old ≡ numbers z) }
    ensures { Repaired z (edited_program (Add s) (program_of p)) (program_of result) marks.new
        work.new }
{
    let added = with_step(p, s);
    follow_added(z, added, s.routine, s.source, marks);
    clear(work);
    added
}

// Pruning (paper: the keeping) by the program without what is dropped, of whatever marks are lent: a forward drop is
// this, and no fresh analysis.
fn prune_marks(z: Sizes, p: DecodedProgram, marks: &mut [u8], work: &mut [u8])
    requires well_formed { WellFormed (program_of p) × Sized z (program_of p) }
    requires marks_len { (length marks.old ≡ numbers z) × (length work.old ≡ numbers z) }
    ensures { Shows z (Kept z (program_of p) marks.old) marks.new
        × (work.new ≡ none_set z) }
{
    prune_program(z, p, marks, work);
}

fn drop_step(
    z: Sizes,
    p: DecodedProgram,
    s: Step,
    marks: &mut [u8],
    work: &mut [u8],
) -> DecodedProgram
    requires well_formed { WellFormed (program_of p) × Applies (Drop s) (program_of p) × (z ≡ sizes_of (program_of p)) }
    requires marks_len { (length marks.old ≡ numbers z) × (length work.old ≡ numbers z) }
    ensures { Keeps z (edited_program (Drop s) (program_of p)) (program_of result) marks.old marks.new
        work.new }
{
    let dropped = without_step(p, s);
    prune_marks(z, dropped, marks, work);
    dropped
}

pub fn repair_edit(
    z: Sizes,
    p: DecodedProgram,
    e: Edit,
    marks: &mut [u8],
    work: &mut [u8],
) -> DecodedProgram
    requires well_formed { WellFormed (program_of p) × Applies e (program_of p) × (z ≡ sizes_of (program_of p)) }
    requires lent_forward { LentForward e z (program_of p) marks.old × (length work.old ≡ numbers z) }
    ensures { MendedForward e z (program_of p) (program_of result) marks.old marks.new
        work.new }
{
    match e {
        Edit::Add(s) => add_step(z, p, s, marks, work),
        Edit::Drop(s) => drop_step(z, p, s, marks, work),
        Edit::Replace(s, l) => {
            let dropped = drop_step(z, p, s, marks, work);
            add_step(z, dropped, relabelled(s, l), marks, work)
        }
    }
}

// Pruning by the program without the edges of routine f, of whatever marks are lent.
pub fn drop_routine(z: Sizes, p: DecodedProgram, f: u8, marks: &mut [u8], work: &mut [u8])
    requires well_formed { WellFormed (program_of p) × (z ≡ sizes_of (program_of p)) }
    requires marks_len { (length marks.old ≡ numbers z) × (length work.old ≡ numbers z) }
    ensures { Shows z (Kept z (emptied f (program_of p)) marks.old) marks.new
        × (work.new ≡ none_set z) }
{
    prune_marks(z, without_routine(p, f), marks, work);
}

// The new edges act, each from its own node: the marks are those of the program without any edge of the routine.
pub fn add_routine(
    z: Sizes,
    p: DecodedProgram,
    x: DecodedExchange,
    marks: &mut [u8],
    work: &mut [u8],
) -> DecodedProgram
    requires well_formed { WellFormed (program_of p) × Fits (exchange_of x) (program_of p)
        × Sized z (emptied x.routine (program_of p)) × Sized z (exchanged_program (exchange_of x) (program_of p)) }
    requires marks_value { (marks.old ≡ fresh_at z (emptied x.routine (program_of p))) × (length work.old ≡ numbers z) }
    ensures { Repaired z (exchanged_program (exchange_of x) (program_of p)) (program_of result) marks.new
        work.new }
{
    let changed = exchanged(p, x);
    follow_routine(z, changed, x.routine, marks);
    clear(work);
    changed
}

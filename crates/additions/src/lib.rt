// An add by the inside-out repair: it does what the forward one does, and tells the routines that have gained a
// configuration by it. The adds that come here were not refused and the marks are the program's own (refusals 12 to 17,
// 21): hence each `requires`.
#![tactic(auto)]

ghost use Rattle.std.specs.Prelude.{◌≡◌, length};
ghost use Rattle.program.specs.Chosen.{sizes_of, numbers, Admitted};
ghost use Rattle.program.specs.WellFormed.{WellFormed};
ghost use Rattle.program.specs.Decoded.{program_of};
ghost use Rattle.edit.specs.Editing.{edited_program, Applies};
ghost use Rattle.edit.specs.declared.Edit.TheVariants.{Add};
ghost use Rattle.exchange.specs.Changing.{emptied, exchanged_program};
ghost use Rattle.exchange.specs.Wanted.{Fits};
ghost use Rattle.exchange.specs.Decoded.{exchange_of};
ghost use Rattle.reach.specs.Configurations.{Usable};
ghost use Rattle.reach.specs.Ranged.{Sized};
ghost use Rattle.reach.specs.Marks.{fresh_at};
ghost use Rattle.callgraph.specs.Components.{Gained};
ghost use Rattle.forward.specs.Parts.{Repaired};
ghost use Rattle.gained.specs.Parts.{FlagsOf, MarkedMore};

use callgraph::routines::Routines;
use edit::Step;
use exchange::DecodedExchange;
use forward::{add_routine, add_step};
use gained::gained;
use program::DecodedProgram;
use program::sizes::{MARKS_MOST, Sizes};

// The changed program, and the routines that are told as reanalyzed.
#[derive(Clone, Copy)]
pub struct Reworked {
    pub program: DecodedProgram,
    pub routines: Routines,
}

// An add, with the marks before it copied: the routines that gain are told by both. What the add does to the two buffers
// is for the caller to say.
fn beside<F: FnOnce(&mut [u8], &mut [u8]) -> DecodedProgram>(
    z: Sizes,
    add: F,
    marks: &mut [u8],
    work: &mut [u8],
) -> Reworked
    requires callable { (m : _) (w : _) → m.now ≡ marks.old → w.now ≡ work.old → F.pre add m w }
    requires sized { Usable z × Admitted z × (length marks.old ≡ numbers z) × (length work.old ≡ numbers z) }
    ensures added { (m : _) × (w : _) × (m' : _) × (w' : _) × (m.now ≡ marks.old) × (w.now ≡ work.old)
        × F.post add m w result.program m' w' × (m'.now ≡ marks.new) × (w'.now ≡ work.new) }
    ensures told { FlagsOf (MarkedMore z marks.old marks.new) result.routines.flags }
{
    let mut room = [0u8; MARKS_MOST];
    let old = &mut room[..marks.len()];
    old.copy_from_slice(marks);
    let program = add(marks, work);
    let routines = gained(z, old, marks);
    Reworked { program, routines }
}

pub fn add_step_inside_out(
    z: Sizes,
    p: DecodedProgram,
    s: Step,
    marks: &mut [u8],
    work: &mut [u8],
) -> Reworked
    requires well_formed { WellFormed (program_of p) × Applies (Add s) (program_of p) × (z ≡ sizes_of (program_of p)) }
    requires marks_value { (marks.old ≡ fresh_at z (program_of p)) × (length work.old ≡ numbers z) }
    ensures { Repaired z (edited_program (Add s) (program_of p)) (program_of result.program) marks.new
        work.new
        × FlagsOf (Gained (program_of p) (edited_program (Add s) (program_of p))) result.routines.flags }
{
    beside(z, |m, w| add_step(z, p, s, m, w), marks, work)
}

pub fn add_routine_inside_out(
    z: Sizes,
    p: DecodedProgram,
    x: DecodedExchange,
    marks: &mut [u8],
    work: &mut [u8],
) -> Reworked
    requires well_formed { WellFormed (program_of p) × Fits (exchange_of x) (program_of p)
        × Sized z (emptied x.routine (program_of p)) × Sized z (exchanged_program (exchange_of x) (program_of p)) }
    requires marks_value { (marks.old ≡ fresh_at z (emptied x.routine (program_of p))) × (length work.old ≡ numbers z) }
    ensures { Repaired z (exchanged_program (exchange_of x) (program_of p)) (program_of result.program)
        marks.new work.new
        × FlagsOf (Gained (emptied x.routine (program_of p)) (exchanged_program (exchange_of x) (program_of p)))
        result.routines.flags }
{
    beside(z, |m, w| add_routine(z, p, x, m, w), marks, work)
}

// The marks after an edit: those of the program before it become those of the edited program, forward or inside-out.
#![tactic(auto)]

ghost use Rattle.std.specs.Prelude.{◌≡◌, length};
ghost use Rattle.program.specs.Chosen.{sizes_of, numbers};
ghost use Rattle.program.specs.WellFormed.{WellFormed};
ghost use Rattle.program.specs.Decoded.{program_of};
ghost use Rattle.edit.specs.Editing.{Applies};
ghost use Rattle.exchange.specs.Changes.{step};
ghost use Rattle.gained.specs.Parts.{FlagsOf};
ghost use Rattle.inside_out.specs.Reanalyzed.{ReanalyzedBy, Told};
ghost use Rattle.update.specs.Parts.{Lent, Mended};

use additions::Reworked;
use callgraph::routines::Routines;
use edit::Edit;
use forward::repair_edit;
use inside_out::rework_edit;
use program::DecodedProgram;
use program::sizes::{MAX_ROUTINES, Sizes};

// The marks are repaired in the way that is asked for: inside-out, which tells the reanalyzed routines, or forward,
// which tells none. The caller has refused edits that do not apply (12 to 16) and has measured the buffers (9 and 11);
// but for a forward drop, which keeps of whatever marks are lent, it has refused marks that are not the program's own
// (17): hence the `requires`.
pub fn mend(
    inward: bool,
    z: Sizes,
    p: DecodedProgram,
    e: Edit,
    marks: &mut [u8],
    work: &mut [u8],
) -> Reworked
    requires well_formed { WellFormed (program_of p) × Applies e (program_of p) × (z ≡ sizes_of (program_of p)) }
    requires lent { Lent inward e z (program_of p) marks.old × (length work.old ≡ numbers z) }
    ensures { Mended inward e z (program_of p) (program_of result.program) marks.old marks.new
        work.new
        × FlagsOf (Told inward (ReanalyzedBy (step e) (program_of p))) result.routines.flags }
{
    if inward {
        return rework_edit(z, p, e, marks, work);
    }
    let program = repair_edit(z, p, e, marks, work);
    let routines = Routines {
        flags: [0u8; MAX_ROUTINES],
    };
    Reworked { program, routines }
}

// The inside-out repair of the marks: an add does what the forward repair does; a drop works component by component; a
// replace is the drop and then the add; an exchange is the drop of all edges of the routine and then the add of all new
// ones. The routines that are reanalyzed are told. The changes that come here were not refused and the marks are the
// program's own (refusals 12 to 17, 21): hence each `requires`.
#![tactic(auto)]

ghost use Rattle.std.specs.Prelude.{◌≡◌, length};
ghost use Rattle.program.specs.Chosen.{sizes_of, numbers};
ghost use Rattle.program.specs.WellFormed.{WellFormed};
ghost use Rattle.program.specs.Decoded.{program_of};
ghost use Rattle.edit.specs.Editing.{edited_program, Applies};
ghost use Rattle.edit.specs.declared.Edit.TheVariants.{Drop, Replace};
ghost use Rattle.exchange.specs.Changes.{step};
ghost use Rattle.exchange.specs.Changing.{emptied};
ghost use Rattle.reach.specs.Configurations.{none_set};
ghost use Rattle.reach.specs.Marks.{fresh_at};
ghost use Rattle.callgraph.specs.Components.{Reanalyzed};
ghost use Rattle.forward.specs.Parts.{Repaired};
ghost use Rattle.gained.specs.Parts.{FlagsOf};
ghost use Rattle.inside_out.specs.Reanalyzed.{ReanalyzedBy};

use additions::{Reworked, add_step_inside_out};
use callgraph::routines::{Routines, join};
use components::drop::drop_inside_out;
use edit::apply::{relabelled, without_step};
use edit::{Edit, Label, Step};
use exchange::apply::without_routine;
use program::DecodedProgram;
use program::sizes::Sizes;

fn drop_step_inside_out(
    z: Sizes,
    p: DecodedProgram,
    s: Step,
    marks: &mut [u8],
    work: &mut [u8],
) -> Reworked
    requires well_formed { WellFormed (program_of p) × Applies (Drop s) (program_of p) × (z ≡ sizes_of (program_of p)) }
    requires marks_value { (marks.old ≡ fresh_at z (program_of p)) × (length work.old ≡ numbers z) }
    ensures { Repaired z (edited_program (Drop s) (program_of p)) (program_of result.program) marks.new
        work.new
        × FlagsOf (ReanalyzedBy (step (Drop s)) (program_of p)) result.routines.flags }
{
    let program = without_step(p, s);
    let routines = drop_inside_out(z, program, s.routine, marks, work);
    Reworked { program, routines }
}

fn replace_step_inside_out(
    z: Sizes,
    p: DecodedProgram,
    s: Step,
    l: Label,
    marks: &mut [u8],
    work: &mut [u8],
) -> Reworked
    requires well_formed { WellFormed (program_of p) × Applies (Replace s l) (program_of p) × (z ≡ sizes_of (program_of p)) }
    requires marks_value { (marks.old ≡ fresh_at z (program_of p)) × (length work.old ≡ numbers z) }
    ensures { Repaired z (edited_program (Replace s l) (program_of p)) (program_of result.program) marks.new
        work.new
        × FlagsOf (ReanalyzedBy (step (Replace s l)) (program_of p)) result.routines.flags }
{
    let dropped = drop_step_inside_out(z, p, s, marks, work);
    let new = relabelled(s, l);
    let added = add_step_inside_out(z, dropped.program, new, marks, work);
    let routines = join(dropped.routines, added.routines);
    let program = added.program;
    Reworked { program, routines }
}

pub fn rework_edit(
    z: Sizes,
    p: DecodedProgram,
    e: Edit,
    marks: &mut [u8],
    work: &mut [u8],
) -> Reworked
    requires well_formed { WellFormed (program_of p) × Applies e (program_of p) × (z ≡ sizes_of (program_of p)) }
    requires marks_value { (marks.old ≡ fresh_at z (program_of p)) × (length work.old ≡ numbers z) }
    ensures { Repaired z (edited_program e (program_of p)) (program_of result.program) marks.new
        work.new
        × FlagsOf (ReanalyzedBy (step e) (program_of p)) result.routines.flags }
{
    match e {
        Edit::Add(s) => add_step_inside_out(z, p, s, marks, work),
        Edit::Drop(s) => drop_step_inside_out(z, p, s, marks, work),
        Edit::Replace(s, l) => replace_step_inside_out(z, p, s, l, marks, work),
    }
}

pub fn drop_routine_inside_out(
    z: Sizes,
    p: DecodedProgram,
    f: u8,
    marks: &mut [u8],
    work: &mut [u8],
) -> Routines
    requires well_formed { WellFormed (program_of p) × (z ≡ sizes_of (program_of p)) }
    requires marks_value { (marks.old ≡ fresh_at z (program_of p)) × (length work.old ≡ numbers z) }
    ensures { (marks.new ≡ fresh_at z (emptied f (program_of p))) × (work.new ≡ none_set z)
        × FlagsOf (Reanalyzed (program_of p) (emptied f (program_of p)) f) result.flags }
{
    let program = without_routine(p, f);
    drop_inside_out(z, program, f, marks, work)
}

// Repairs: one edit line changes a program, its marks become those of the changed program, and the new file is written.
// Exchanges, which have a second buffer, are in the crate `rewrite`; an edit line has none.
#![tactic(auto)]

ghost use Rattle.std.specs.Prelude.{◌≡◌, true, [], eqb, ◌≤◌, length};
ghost use Rattle.program.specs.Sizes.{output_size};
ghost use Rattle.program.specs.Chosen.{sizes_of, numbers};
ghost use Rattle.program.specs.WellFormed.{WellFormed};
ghost use Rattle.program.specs.Decoded.{program_of};
ghost use Rattle.edit.specs.Editing.{Applies};
ghost use Rattle.exchange.specs.Changes.{step, Read, EditLine};
ghost use Rattle.exchange_text.specs.Wanted.{wanted_change};
ghost use Rattle.program.specs.Reading.{read_file};
ghost use Rattle.writer.specs.Answers.{refusal};
ghost use Rattle.repair.specs.Repairs.{afterwards, changed_by, wanted_by, repaired, plain, reanalyzed};
ghost use Rattle.repair.specs.Repairs.{InsideOutNumber};
ghost use Rattle.repair.specs.RepairAnswers.{repair_answer_by};
ghost use Rattle.writer.specs.WriteAnswers.{write_answer_by};

use analysis::check_own;
use callgraph::routines::bits_of;
use checks::passed_program;
use edit::Edit;
use edit_line::wanted_edit;
use program::DecodedProgram;
use program::chosen::sizes_of;
use program::refusal::RefusedAt;
use update::mend;
use writer::put::write_program;

// What a repair has done: so many bytes were written, and these routines were reanalyzed, a bit each.
#[derive(Clone, Copy, Debug, PartialEq, Eq)]
pub struct Repair {
    pub written: usize,
    pub reanalyzed: u32,
}

// Marks that are not the program's own are refused. Else they are repaired, and the changed program is written.
fn repair_own(
    inward: bool,
    p: DecodedProgram,
    e: Edit,
    marks: &mut [u8],
    output: &mut [u8],
    work: &mut [u8],
) -> Result<Repair, RefusedAt>
    requires well_formed { WellFormed (program_of p) × Applies e (program_of p) }
    requires marks_len { (length marks.old ≡ numbers (sizes_of (program_of p))) × (output_size ≤ length output.old)
        × (length work.old ≡ numbers (sizes_of (program_of p))) }
    ensures { (afterwards (plain (repair_answer_by result)) marks.new output.new work.new []
        ≡ changed_by (step e) (program_of p) marks.old output.old work.old [])
        × (inward ≡ true → InsideOutNumber (eqb (refusal (plain (repair_answer_by result))) 0) (Read (step e)) (program_of p)
        (reanalyzed (repair_answer_by result))) }
{
    check_own(p, marks, work)?;
    let z = sizes_of(p);
    let mended = mend(inward, z, p, e, marks, work);
    let reanalyzed = bits_of(&mended.routines.flags);
    let written = write_program(output, mended.program);
    Ok(Repair {
        written,
        reanalyzed,
    })
}

// The refusals of the edit line (12 to 16); else the marks are left to check.
fn repair_wanted(
    inward: bool,
    p: DecodedProgram,
    marks: &mut [u8],
    text: &[u8],
    output: &mut [u8],
    work: &mut [u8],
) -> Result<Repair, RefusedAt>
    requires well_formed { WellFormed (program_of p) }
    requires marks_len { (length marks.old ≡ numbers (sizes_of (program_of p))) × (output_size ≤ length output.old)
        × (length work.old ≡ numbers (sizes_of (program_of p))) }
    ensures { (afterwards (plain (repair_answer_by result)) marks.new output.new work.new []
        ≡ wanted_by (wanted_change EditLine (program_of p) text.now) (program_of p) marks.old
        output.old work.old [])
        × (inward ≡ true → InsideOutNumber (eqb (refusal (plain (repair_answer_by result))) 0)
        (wanted_change EditLine (program_of p) text.now) (program_of p) (reanalyzed (repair_answer_by result))) }
{
    let e = wanted_edit(p, text)?;
    repair_own(inward, p, e, marks, output, work)
}

// Either repair: the inside-out one where that is asked for, else the forward one. Only the inside-out repair promises
// something of the routines.
fn repair_file(
    inward: bool,
    file: &[u8],
    marks: &mut [u8],
    text: &[u8],
    output: &mut [u8],
    work: &mut [u8],
) -> Result<Repair, RefusedAt>
    ensures { (afterwards (plain (repair_answer_by result)) marks.new output.new work.new []
        ≡ repaired EditLine file.now marks.old text.now output.old
        work.old [])
        × (inward ≡ true → InsideOutNumber (eqb (refusal (plain (repair_answer_by result))) 0)
        (wanted_change EditLine (read_file file.now).program text.now)
        (read_file file.now).program (reanalyzed (repair_answer_by result))) }
{
    let p = passed_program(
        file,
        Some(marks.len()),
        Some(output.len()),
        Some(work.len()),
    )?;
    repair_wanted(inward, p, marks, text, output, work)
}

// Either repair of a file and its marks by an edit line: the inside-out one where that is asked for, else the forward
// one. The marks must be the file's own. A refusal leaves the marks and the output alone, and the working buffer too
// unless it is 17; after 17 and on success the working buffer is all zero.
pub fn repair_with(
    inside_out: bool,
    file: &[u8],
    marks: &mut [u8],
    text: &[u8],
    output: &mut [u8],
    work: &mut [u8],
) -> Result<usize, RefusedAt>
    ensures { afterwards (write_answer_by result) marks.new output.new work.new []
        ≡ repaired EditLine file.now marks.old text.now output.old
        work.old [] }
{
    let repair = repair_file(inside_out, file, marks, text, output, work)?;
    Ok(repair.written)
}

// The inside-out repair: the same, and the answer says which routines were reanalyzed.
pub fn repair_inside_out(
    file: &[u8],
    marks: &mut [u8],
    text: &[u8],
    output: &mut [u8],
    work: &mut [u8],
) -> Result<Repair, RefusedAt>
    ensures { (afterwards (plain (repair_answer_by result)) marks.new output.new work.new []
        ≡ repaired EditLine file.now marks.old text.now output.old
        work.old [])
        × InsideOutNumber (eqb (refusal (plain (repair_answer_by result))) 0) (wanted_change EditLine (read_file file.now).program
        text.now) (read_file file.now).program (reanalyzed (repair_answer_by result)) }
{
    repair_file(true, file, marks, text, output, work)
}

// Saved marks: old ones, of before a program chose its sizes, are moved to frames, and frames back to old marks.
#![tactic(auto)]

mod mark_frames;
mod old;

ghost use Rattle.std.specs.Prelude.{◌≡◌, false, length, replicate};
ghost use Rattle.program.specs.Chosen.{numbers};
ghost use Rattle.program.specs.Checks.{first_met};
ghost use Rattle.program.specs.Refusals.{number_met};
ghost use Rattle.program.specs.WellFormed.{WellFormed};
ghost use Rattle.program.specs.Decoded.{program_of};
ghost use Rattle.saved.specs.Saved.{old_sizes, too_large};
ghost use Rattle.writer.specs.WriteAnswers.{write_answer_by};
ghost use Rattle.saved.specs.Answers.{over, back, early_rows, move_answer, move_output, move_work};
ghost use Rattle.saved.specs.Parts.{Moved, Wrote, CheckedEarly};

use base::flags::clear;
use checks::other_than;
use mark_frames::{is_text_of, write_frames};
use old::{OLD_MARKS_SIZE, analyze_old, is_too_large};
use program::DecodedProgram;
use program::chosen::sizes_of;
use program::refusal::{Refusal, RefusedAt};
use program::sizes::length_of;
use reader::read;

// Whether a program is too large or a buffer's length is refused: the first of the early rows that is met decides.
#[tactic(auto, using(crate::proofs::OldSizes::old_numbers), unfolding(program::specs::Checks::first_met))]
fn check_sizes(p: DecodedProgram, marks: Option<usize>, work: usize) -> Result<(), Refusal>
    ensures { number_met result ≡ first_met (early_rows (program_of p) marks work) }
{
    if is_too_large(p) {
        return Err(Refusal::TooLargeToSave);
    }
    if other_than(OLD_MARKS_SIZE, marks) {
        return Err(Refusal::MarksLength);
    }
    let size = length_of(sizes_of(p));
    if other_than(size, Some(work)) {
        return Err(Refusal::WorkLength);
    }
    Ok(())
}

// Reads a file, and makes the checks that come before anything is touched: the program, or the first refusal of these.
fn checked_early(
    file: &[u8],
    marks: Option<usize>,
    work: usize,
) -> Result<DecodedProgram, RefusedAt>
    ensures { CheckedEarly file.now marks work result }
{
    let program = read(file)?;
    check_sizes(program, marks, work)?;
    Ok(program)
}

// Copies marks to the start of the output, unless this is too short.
fn write_marks(marks: &[u8], output: &mut [u8]) -> Result<usize, RefusedAt>
    ensures { Wrote marks.now output.old output.new result }
{
    let size = marks.len();
    if output.len() < size {
        return Err(Refusal::OutputShort.into());
    }
    let _copied = base::bytes::copy(marks, output);
    Ok(size)
}

// Writes the frames of old marks that are the program's own; others are refused. The early checks are passed: hence
// the `requires`.
fn move_over(
    p: DecodedProgram,
    marks: &[u8],
    output: &mut [u8],
    work: &mut [u8],
) -> Result<usize, RefusedAt>
    requires { WellFormed (program_of p) × (too_large (program_of p) ≡ false)
        × (length marks.now ≡ numbers old_sizes) }
    ensures { Moved over (program_of p) marks.now output.old output.new result
        × (work.new ≡ replicate (length work.old) 0) }
{
    let mut own = [0u8; OLD_MARKS_SIZE];
    analyze_old(p, &mut own);
    clear(work);
    if marks != own.as_slice() {
        return Err(Refusal::ForeignSaved.into());
    }
    write_frames(marks, output)
}

// Writes the old marks of frames that are the program's own; others are refused. The early checks are passed: hence
// the `requires`.
fn move_back(
    p: DecodedProgram,
    frames: &[u8],
    output: &mut [u8],
    work: &mut [u8],
) -> Result<usize, RefusedAt>
    requires { WellFormed (program_of p) × (too_large (program_of p) ≡ false) }
    ensures { Moved back (program_of p) frames.now output.old output.new result
        × (work.new ≡ replicate (length work.old) 0) }
{
    let mut own = [0u8; OLD_MARKS_SIZE];
    analyze_old(p, &mut own);
    clear(work);
    if !is_text_of(frames, &own) {
        return Err(Refusal::ForeignSaved.into());
    }
    write_marks(&own, output)
}

// Moves the old marks of a file's program to frames, at the start of the output. A refusal leaves the output alone, and
// the working buffer too, but for `ForeignSaved` and `OutputShort`: then it is all zero, as on success.
pub fn marks_to_frames(
    file: &[u8],
    marks: &[u8],
    output: &mut [u8],
    work: &mut [u8],
) -> Result<usize, RefusedAt>
    ensures { (write_answer_by result ≡ move_answer over file.now marks.now output.old work.old)
        × (output.new ≡ move_output over file.now marks.now output.old
        work.old)
        × (work.new ≡ move_work over file.now marks.now work.old) }
{
    let program = checked_early(file, Some(marks.len()), work.len())?;
    move_over(program, marks, output, work)
}

// Moves the frames of a file's program back to old marks, at the start of the output; the refusals leave what they leave
// the other way.
pub fn frames_to_marks(
    file: &[u8],
    frames: &[u8],
    output: &mut [u8],
    work: &mut [u8],
) -> Result<usize, RefusedAt>
    ensures { (write_answer_by result ≡ move_answer back file.now frames.now output.old work.old)
        × (output.new ≡ move_output back file.now frames.now output.old
        work.old)
        × (work.new ≡ move_work back file.now frames.now work.old) }
{
    let program = checked_early(file, None, work.len())?;
    move_back(program, frames, output, work)
}

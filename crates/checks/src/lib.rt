// The checks that a call makes before it touches anything: the file, and the lengths of the buffers that it is lent.
#![tactic(auto)]

ghost use Rattle.std.specs.Prelude.{◌≡◌};
ghost use Rattle.program.specs.Checks.{first_met, other_than, under, buffer_rows};
ghost use Rattle.program.specs.Refusals.{number_met};
ghost use Rattle.checks.specs.Checked.{PassedOr, Checked};

use program::chosen::sizes_of;
use program::refusal::{Refusal, RefusedAt};
use program::sizes::{OUTPUT_SIZE, length_of};
use program::{DecodedProgram, no_program};
use reader::read;

// Why a call is refused before it touches anything, and the program of the file: the empty one where it is the file that
// is refused.
#[derive(Clone, Copy)]
pub struct RefusedCall {
    pub refused: RefusedAt,
    pub program: DecodedProgram,
}

// Whether there is such a buffer and it has another length than this.
pub fn other_than(size: usize, length: Option<usize>) -> bool
    ensures { result ≡ other_than size length }
{
    length.is_some_and(|n| n != size)
}

// Whether there is such a buffer and it is shorter than this.
fn under(size: usize, length: Option<usize>) -> bool
    ensures { result ≡ under size length }
{
    length.is_some_and(|n| n < size)
}

// Whether a length is refused: the first of the rows that is met decides.
#[tactic(auto, unfolding(program::specs::Checks::first_met))]
fn check_lengths(
    size: usize,
    marks: Option<usize>,
    output: Option<usize>,
    work: Option<usize>,
) -> Result<(), Refusal>
    ensures { number_met result ≡ first_met (buffer_rows size marks output work) }
{
    if other_than(size, marks) {
        return Err(Refusal::MarksLength);
    }
    if under(OUTPUT_SIZE, output) {
        return Err(Refusal::OutputShort);
    }
    if other_than(size, work) {
        return Err(Refusal::WorkLength);
    }
    Ok(())
}

// Reads a file and measures the buffers that a call is lent, those that it has: the program, or the first refusal of
// these.
pub fn passed_program(
    file: &[u8],
    marks: Option<usize>,
    output: Option<usize>,
    work: Option<usize>,
) -> Result<DecodedProgram, RefusedAt>
    ensures { PassedOr file.now marks output work result }
{
    let program = read(file)?;
    let size = length_of(sizes_of(program));
    check_lengths(size, marks, output, work)?;
    Ok(program)
}

// The same, and a refusal comes with the program that was read. For it the file is read once more, so that a call that
// has no use for the program, and no stack to spare, asks `passed_program`.
pub fn checked_program(
    file: &[u8],
    marks: Option<usize>,
    output: Option<usize>,
    work: Option<usize>,
) -> Result<DecodedProgram, RefusedCall>
    ensures { Checked file.now marks output work result }
{
    match passed_program(file, marks, output, work) {
        Ok(program) => Ok(program),
        Err(refused) => {
            let program = match read(file) {
                Ok(accepted) => accepted,
                Err(_) => no_program(),
            };
            Err(RefusedCall { refused, program })
        }
    }
}

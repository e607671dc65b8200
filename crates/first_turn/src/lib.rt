// The first turn: the file of an input is read and analyzed, and its block or its refusal is printed.
#![tactic(auto)]

ghost use Rattle.std.specs.Prelude.{◌≡◌, ◌≤◌, IfOk, length};
ghost use Rattle.input.specs.Input.{input_size};
ghost use Rattle.program.specs.Reading.{read_file};
ghost use Rattle.program.specs.Refusals.{verdict_by};
ghost use Rattle.reach.specs.Marks.{fresh_marks};
ghost use Rattle.transcript.specs.Transcript.{held_of, nothing, TurnGives, file_of, begun_by, begun};

use analysis::analyze;
use checks::passed_program;
use input::INPUT_SIZE;
use program::chosen::sizes_of;
use program::refusal::{Refusal, RefusedAt};
use program::sizes::{MARKS_MOST, length_of};
use report::{BLOCK_SIZE, edit_refusal, file_refusal};
use transcript::{Held, Turn, hold, put_held};

// No analysis takes so many: 16,384 configurations, each once and once more for each of 4,096 summaries.
const MOST_ITERATIONS: usize = 67125248;

// Nothing is held, and the next turn would start at the input's end: there is none.
fn nothing_more(size: usize, end: usize) -> Turn
    ensures { (result.size ≡ size) × ((result.next ≡ end) × (held_of result.held ≡ nothing)) }
{
    let held = Held {
        file: [0u8; INPUT_SIZE],
        used: 0,
        marks: [0u8; MARKS_MOST],
        size: 0,
    };
    Turn {
        size,
        next: end,
        held,
    }
}

// A file and its marks, which an analysis finds without a limit that could be met; or the refusal of the file. No file
// that is held is longer than an input may be: hence the `requires`.
fn held_at_first(file: &[u8]) -> Result<Held, RefusedAt>
    requires { length file.now ≤ input_size }
    ensures verdict { verdict_by result ≡ (read_file file.now).verdict }
    ensures held { IfOk result (λ h. held_of h ≡ record { file = file.now; marks = fresh_marks (read_file file.now).program }) }
{
    let program = passed_program(file, None, None, None)?;
    let size = length_of(sizes_of(program));
    let mut marks = [0u8; MARKS_MOST];
    let mut work = [0u8; MARKS_MOST];
    analyze(file, &mut marks[..size], &mut work[..size], MOST_ITERATIONS)?;
    Ok(hold(file, marks, size))
}

// The file: its refusal, or its block and the file to be held. An input that is longer is refused before: hence the
// `requires`.
fn begin_file(input: &[u8], out: &mut [u8; BLOCK_SIZE]) -> Turn
    requires { length input.now ≤ input_size }
    ensures { TurnGives (begun_by (read_file (file_of input.now)).verdict
        (read_file (file_of input.now)).program input.now)
        out.old out.new result }
{
    let end = input::file_size(input);
    match held_at_first(&input[..end]) {
        Err(refused) => nothing_more(file_refusal(refused, out), input.len()),
        Ok(held) => Turn {
            size: put_held(held, out),
            next: end,
            held,
        },
    }
}

// The first turn. More than 16,384 bytes of input are refused; else the file is read.
pub fn begin(input: &[u8], out: &mut [u8; BLOCK_SIZE]) -> Turn
    ensures { TurnGives (begun input.now) out.old out.new result }
{
    if INPUT_SIZE < input.len() {
        nothing_more(edit_refusal(Refusal::InputTooLong, out), input.len())
    } else {
        begin_file(input, out)
    }
}

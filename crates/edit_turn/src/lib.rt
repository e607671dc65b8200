// The turn of an edit line: what is held is repaired by it, and the new block or the refusal is printed.
#![tactic(auto)]

ghost use Rattle.std.specs.Prelude.{◌≡◌};
ghost use Rattle.writer.specs.WriteAnswers.{write_answer_by};
ghost use Rattle.repair.specs.Desk.{file_by, after};
ghost use Rattle.report.specs.Report.{Printed};
ghost use Rattle.transcript.specs.Transcript.{held_of, TurnGives, line_at, edit_on, turned};
ghost use Rattle.transcript.specs.Parts.{edited_text};

use input::line_size;
use program::refusal::RefusedAt;
use program::sizes::{MARKS_MOST, OUTPUT_SIZE};
use repair::repair_with;
use report::{BLOCK_SIZE, edit_refusal};
use transcript::{Held, Turn, hold, put_held, within};

// A repair's answer, and what is held after it.
#[derive(Clone, Copy)]
struct Edited {
    answer: Result<usize, RefusedAt>,
    held: Held,
}

// The line that starts at a position; past the input's end it is empty.
fn line_at(input: &[u8], at: usize) -> &[u8]
    ensures { result.now ≡ line_at input.now at }
{
    let from = within(at, input);
    let next = from + line_size(input, from);
    &input[from..next]
}

// The next file is a copy of what an accepted repair wrote; after a refused one it stays.
fn hold_next(answer: Result<usize, RefusedAt>, output: [u8; OUTPUT_SIZE], held: Held) -> Held
    ensures { held_of result ≡ record { file = file_by (write_answer_by answer) output (held_of held).file; marks = (held_of held).marks } }
{
    match answer {
        Err(_) => held,
        Ok(n) => {
            let written = within(n, &output);
            hold(&output[..written], held.marks, held.size)
        }
    }
}

// The repair of what is held by an edit line, with an output and a working buffer of its own.
fn edit_held(inside_out: bool, line: &[u8], held: Held) -> Edited
    ensures { (write_answer_by result.answer ≡ (edit_on line.now (held_of held)).answer)
        × (held_of result.held ≡ after (edit_on line.now (held_of held)) (held_of held).file) }
{
    let mut output = [0u8; OUTPUT_SIZE];
    let mut work = [0u8; MARKS_MOST];
    let mut marks = held.marks;
    let used = within(held.used, &held.file);
    let size = within(held.size, &held.marks);
    let answer = repair_with(
        inside_out,
        &held.file[..used],
        &mut marks[..size],
        line,
        &mut output,
        &mut work[..size],
    );
    let next = hold_next(
        answer,
        output,
        Held {
            used,
            marks,
            size,
            ..held
        },
    );
    Edited { answer, held: next }
}

// The block of what is held after an accepted edit, or the number of a refused one.
fn put_edited(edited: Edited, out: &mut [u8; BLOCK_SIZE]) -> usize
    ensures { Printed (edited_text (write_answer_by edited.answer) (held_of edited.held)) out.old
        out.new result }
{
    match edited.answer {
        Err(refused) => edit_refusal(refused.refusal, out),
        Ok(_) => put_held(edited.held, out),
    }
}

// A turn for the edit line that starts at a position, by the repair that is asked for.
pub fn edit_line(
    inside_out: bool,
    input: &[u8],
    at: usize,
    held: Held,
    out: &mut [u8; BLOCK_SIZE],
) -> Turn
    ensures { TurnGives (turned input.now at (held_of held)) out.old out.new result }
{
    let past = at + line_size(input, at);
    let edited = edit_held(inside_out, line_at(input, at), held);
    Turn {
        size: put_edited(edited, out),
        next: past,
        held: edited.held,
    }
}

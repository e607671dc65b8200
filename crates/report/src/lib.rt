// What bench prints: the block of a program and its marks, and the lines of refusals.
#![tactic(auto)]

mod put;

ghost use Rattle.std.specs.Prelude.{◌≡◌, [], ◌∷◌, ◌/◌, ◌%◌, length};
ghost use Rattle.text.specs.Lines.{line_of};
ghost use Rattle.program.specs.Refusals.{number};
ghost use Rattle.report.specs.Report.{block_text, edit_refusal, file_refusal, Printed};

use checks::passed_program;
use listing::LINE_SIZE;
use program::chosen::sizes_of;
use program::refusal::{Refusal, RefusedAt};
use program::sizes::MARKS_MOST;
use put::put_block;
use text::{Line, put_line};

// No block is longer: a line for each configuration, and the counts. A refusal's line is no longer than one of these.
pub const BLOCK_SIZE: usize = LINE_SIZE * MARKS_MOST + LINE_SIZE;

// The block of a file's program and of marks: each violation, ascending, and then the counts.
pub fn block(file: &[u8], marks: &[u8], output: &mut [u8]) -> usize
    ensures { Printed (block_text file.now marks.now (length output.old))
        output.old output.new result }
{
    let Ok(p) = passed_program(file, Some(marks.len()), None, None) else {
        return 0;
    };
    if output.len() < BLOCK_SIZE {
        0
    } else {
        put_block(sizes_of(p), p, marks, output)
    }
}

fn edit_refusal_line(n: u8) -> Line
    ensures { result ≡ line_of (0x21 ∷ n ∷ []) }
{
    let numbers = [0x21, n, 0, 0, 0, 0, 0, 0];
    Line { count: 2, numbers }
}

fn file_refusal_line(n: u8, line: usize) -> Line
    ensures { result ≡ line_of (0x21 ∷ n ∷ line % 65536 / 256 ∷ line % 65536 % 256 ∷ []) }
{
    let numbers = [
        0x21,
        n,
        (line % 65536 / 256) as u8,
        (line % 65536 % 256) as u8,
        0,
        0,
        0,
        0,
    ];
    Line { count: 4, numbers }
}

// The line of a refused edit.
pub fn edit_refusal(refusal: Refusal, output: &mut [u8]) -> usize
    ensures { Printed (edit_refusal (number refusal) (length output.old)) output.old
        output.new result }
{
    if output.len() < LINE_SIZE {
        0
    } else {
        let l = edit_refusal_line(refusal.number());
        put_line(output, 0, l)
    }
}

// The line of a refused file.
pub fn file_refusal(refused: RefusedAt, output: &mut [u8]) -> usize
    ensures { Printed (file_refusal (number refused.refusal) refused.line (length output.old)) output.old
        output.new result }
{
    if output.len() < LINE_SIZE {
        0
    } else {
        let l = file_refusal_line(refused.refusal.number(), refused.line);
        put_line(output, 0, l)
    }
}

// What bench prints for an input, a turn after the other: one for the file, and then one for each edit line. Each turn
// puts its text at the start of an output of 180,235 bytes, which every text fits. Here is what is held between two
// turns, and its block.
#![tactic(auto)]

ghost use Rattle.std.specs.Prelude.{◌≡◌, ◌≤◌, length, take};
ghost use Rattle.input.specs.Input.{input_size};
ghost use Rattle.report.specs.Report.{block_text, Printed, block_size};
ghost use Rattle.transcript.specs.Transcript.{held_of};
ghost use Rattle.transcript.specs.Parts.{Within};

use input::INPUT_SIZE;
use program::sizes::MARKS_MOST;
use report::BLOCK_SIZE;

// What is held between two turns: the first `used` bytes of the file, and the first `size` of the marks. The bytes past
// them are free.
#[derive(Clone, Copy)]
pub struct Held {
    pub file: [u8; INPUT_SIZE],
    pub used: usize,
    pub marks: [u8; MARKS_MOST],
    pub size: usize,
}

// After a turn: how many bytes of the output are printed, where the next edit line starts, and what is held for it.
#[derive(Clone, Copy)]
pub struct Turn {
    pub size: usize,
    pub next: usize,
    pub held: Held,
}

// A count of bytes, no more than there are.
pub fn within(n: usize, bytes: &[u8]) -> usize
    ensures { Within n bytes.now result }
{
    n.min(bytes.len())
}

// A copy of a file, with its marks. No file that is held is longer than an input may be: hence the `requires`.
pub fn hold(file: &[u8], marks: [u8; MARKS_MOST], size: usize) -> Held
    requires { length file.now ≤ input_size }
    ensures { held_of result ≡ record { file = file.entry.now; marks = take size marks } }
{
    let mut copy = [0u8; INPUT_SIZE];
    let used = base::bytes::copy(file, &mut copy);
    Held {
        file: copy,
        used,
        marks,
        size,
    }
}

// The block of what is held.
pub fn put_held(held: Held, out: &mut [u8; BLOCK_SIZE]) -> usize
    ensures { Printed (block_text (held_of held).file (held_of held).marks block_size) out.old
        out.new result }
{
    let used = within(held.used, &held.file);
    let size = within(held.size, &held.marks);
    report::block(&held.file[..used], &held.marks[..size], out)
}

// The frames of old marks: written, and compared with a text line by line, so that they are never kept whole.
ghost use Rattle.std.specs.Prelude.{◌≡◌, ◌<◌, ◌≤◌, length, take, drop};
ghost use Rattle.text.specs.Hex.{hex_line};
ghost use Rattle.program.specs.Chosen.{numbers};
ghost use Rattle.analysis.specs.Answers.{same};
ghost use Rattle.listing.specs.Listing.{frame_at, line_size};
ghost use Rattle.saved.specs.Saved.{old_sizes, saved_kind, text_of};
ghost use Rattle.saved.specs.Parts.{Wrote};

use crate::old::old_sizes;
use automaton::sizes::MAX_STATES;
use base::flags::count_set;
use listing::{LINE_SIZE, frame_line, put_listing};
use program::refusal::{Refusal, RefusedAt};
use text::{Line, put_line};
use writer::put::end_line;

const SAVED_KIND: u8 = 0x4D;

// The bytes of the end frame's line: three numbers, two digits each, and 0A.
const END_SIZE: usize = 7;

// Is a text this line and nothing else? A frame of old marks has five numbers, and the end three: hence the `requires`.
fn is_line(s: &[u8], l: Line) -> bool
    requires { l.count ≤ 5 }
    ensures { result ≡ same s.now (hex_line (take l.count l.numbers)) }
{
    let mut line = [0u8; LINE_SIZE];
    let size = put_line(&mut line, 0, l);
    s == &line[0..size]
}

// Does a text have, from this position on, the line of the configuration of this number? A position past its end is none,
// and such a number has no line: hence the `requires`.
fn has_frame(s: &[u8], at: usize, i: usize) -> bool
    requires { (at ≤ length s.now) × (i < numbers old_sizes) }
    ensures { result ≡ same (take line_size (drop at s.now)) (hex_line (frame_at saved_kind old_sizes i)) }
{
    let l = frame_line(SAVED_KIND, old_sizes(), i);
    if s.len() - at < LINE_SIZE {
        false
    } else {
        is_line(&s[at..at + LINE_SIZE], l)
    }
}

// Is a text the one of these old marks? It is walked beside them. They have a flag for each number: hence the
// `requires`.
pub fn is_text_of(s: &[u8], marks: &[u8]) -> bool
    requires { length marks.now ≡ numbers old_sizes }
    ensures { result ≡ same s.now (text_of marks.now) }
{
    let mut at: usize = 0;
    for (i, mark) in marks.iter().enumerate() {
        if *mark != 0 {
            if !has_frame(s, at, i) {
                return false;
            }
            at += LINE_SIZE;
        }
    }
    is_line(&s[at..], end_line(count_set(marks)))
}

// Writes the text of old marks at the start of the output, unless this is too short. There is a flag for each
// number: hence the `requires`.
pub fn write_frames(marks: &[u8], output: &mut [u8]) -> Result<usize, RefusedAt>
    requires { length marks.now ≡ numbers old_sizes }
    ensures { Wrote (text_of marks.now) output.old output.new result }
{
    let count = count_set(marks);
    if output.len() < LINE_SIZE * count + END_SIZE {
        return Err(Refusal::OutputShort.into());
    }
    let every_state = [1u8; MAX_STATES];
    let at = put_listing(SAVED_KIND, old_sizes(), marks, &every_state, output);
    Ok(put_line(output, at, end_line(count)))
}

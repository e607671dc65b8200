// The frames of a file: a line's kind, its numbers and its key, and the edge or the row that it says.
#![tactic(auto)]

ghost use Rattle.std.specs.Prelude.{◌≡◌, ◌<◌};
ghost use Rattle.text.specs.Lines.{max_numbers};
ghost use Rattle.rows.specs.Decoded.{row_of};
ghost use Rattle.program.specs.Frames.{kind_order, row_size, size, num, kind, word, rest, key_of};
ghost use Rattle.program.specs.Reading.{edge_in, narrow_row, wide_row, row_in};
ghost use Rattle.program.specs.Decoded.{edge_of};
ghost use Rattle.frames.specs.Kinds.{place, place_of};

use program::edges::edge_key;
use program::frames::pack;
use rows::row_key;
use text::Line;

// The kinds of frames, in the order in which they stand in a file.
#[derive(Clone, Copy, Debug, PartialEq, Eq)]
pub enum FrameKind {
    Header,
    Routine,
    Edge,
    Transition,
    Row,
    Initial,
    Rejecting,
    End,
}

impl FrameKind {
    // Its place in the table of kinds, from 1.
    fn place(self) -> u8
        ensures { result ≡ place self }
    {
        match self {
            FrameKind::Header => 1,
            FrameKind::Routine => 2,
            FrameKind::Edge => 3,
            FrameKind::Transition => 4,
            FrameKind::Row => 5,
            FrameKind::Initial => 6,
            FrameKind::Rejecting => 7,
            FrameKind::End => 8,
        }
    }
}

// The kind that a line's first number names; none is named by another number.
fn kind_by(byte: u8) -> Option<FrameKind>
    ensures { place_of result ≡ kind_order byte }
{
    match byte {
        0x50 => Some(FrameKind::Header),
        0x52 => Some(FrameKind::Routine),
        0x53 => Some(FrameKind::Edge),
        0x54 => Some(FrameKind::Transition),
        0x55 => Some(FrameKind::Row),
        0x49 => Some(FrameKind::Initial),
        0x46 => Some(FrameKind::Rejecting),
        0x45 => Some(FrameKind::End),
        _ => None,
    }
}

fn row_size(states: u8) -> usize
    ensures { result ≡ row_size states }
{
    if 8 < states {
        return 8;
    }
    7
}

// How many numbers a frame of this kind has, its kind among them, where there are so many states: two where the kind is
// unknown.
pub fn size_of(states: u8, kind: Option<FrameKind>) -> usize
    ensures { result ≡ size states (place_of kind) }
{
    match kind {
        Some(FrameKind::Header) => 4,
        Some(FrameKind::Routine) => 3,
        Some(FrameKind::Edge) => 5,
        Some(FrameKind::Transition) => 4,
        Some(FrameKind::Row) => row_size(states),
        Some(FrameKind::Initial | FrameKind::Rejecting) => 2,
        Some(FrameKind::End) => 3,
        None => 2,
    }
}

// A number of a line. Every caller names one of those that a line keeps: hence the `requires`.
pub fn number(l: Line, i: usize) -> u8
    requires { i < max_numbers }
    ensures { result ≡ num l i }
{
    let v = l.numbers;
    v[i]
}

// The kind of a line: none where its first number names none.
pub fn kind_of(l: Line) -> Option<FrameKind>
    ensures { place_of result ≡ kind l }
{
    kind_by(number(l, 0))
}

fn place_of(kind: Option<FrameKind>) -> u8
    ensures { result ≡ place_of kind }
{
    match kind {
        Some(k) => k.place(),
        None => 0,
    }
}

fn word_of(l: Line) -> u32
    ensures { result ≡ word l }
{
    pack(number(l, 1), number(l, 2), number(l, 3), number(l, 4))
}

// The key of a line, by its kind: a line of an unknown kind has one too.
pub fn key_of(kind: Option<FrameKind>, l: Line) -> u64
    ensures { result ≡ key_of (place_of kind) (word l) (rest l) }
{
    let w = word_of(l);
    let a = number(l, 5);
    let b = number(l, 6);
    let c = number(l, 7);
    let front = (place_of(kind) as u64) * 0x100000000 + (w as u64);
    ((front * 256 + (a as u64)) * 256 + (b as u64)) * 256 + (c as u64)
}

// The key of the edge that a line says.
pub fn edge_in(l: Line) -> u32
    ensures { edge_of result ≡ edge_in l }
{
    edge_key(number(l, 1), number(l, 2), number(l, 3), number(l, 4))
}

// The key of the row that a line says, with one number of state bits.
fn narrow_row(l: Line) -> u64
    ensures { row_of result ≡ narrow_row l }
{
    let actions = pack(number(l, 2), number(l, 3), number(l, 4), number(l, 5));
    row_key(number(l, 1) as u16, actions, number(l, 6))
}

// With two, high first.
fn wide_row(l: Line) -> u64
    ensures { row_of result ≡ wide_row l }
{
    let actions = pack(number(l, 3), number(l, 4), number(l, 5), number(l, 6));
    let high = number(l, 1);
    let low = number(l, 2);
    row_key((high as u16) * 256 + (low as u16), actions, number(l, 7))
}

// The key of the row that a line says, where there are so many states.
pub fn row_in(states: u8, l: Line) -> u64
    ensures { row_of result ≡ row_in states l }
{
    if 8 < states {
        return wide_row(l);
    }
    narrow_row(l)
}

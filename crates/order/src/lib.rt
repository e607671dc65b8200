// The order of the frames: what a line is refused for by how much was read before it. It is out of order (4), a table is
// full (6), or the end frame's count is wrong (7).
#![tactic(auto)]

ghost use Rattle.std.specs.Prelude.{◌≡◌};
ghost use Rattle.program.specs.Reading.{due, in_place, ordered, full, miscounted};
ghost use Rattle.frames.specs.Kinds.{place_of};

use automaton::sizes::MAX_TRANSITIONS;
use frames::{FrameKind, key_of, number};
use program::sizes::MAX_EDGES;
use rows::MAX_ROWS;
use text::Line;

// How much was read before a line: frames, routine frames, edges, transitions and rows.
#[derive(Clone, Copy)]
pub struct Counts {
    pub frames: usize,
    pub nodes: usize,
    pub edges: usize,
    pub transitions: usize,
    pub rows: usize,
}

fn is_due(routines: u8, done: usize, f: u8) -> bool
    ensures { result ≡ due routines done f }
{
    let r = routines as usize;
    let i = f as usize;
    (i == done) | ((r <= done) & (done < i))
}

// A line of an unknown kind is never in its place.
fn is_in_place(frames: usize, routines: u8, done: usize, kind: Option<FrameKind>, l: Line) -> bool
    ensures { result ≡ in_place frames routines done (place_of kind) l }
{
    match kind {
        Some(FrameKind::Header) => frames == 0,
        Some(FrameKind::Routine) => 0 < frames && is_due(routines, done, number(l, 1)),
        Some(_) => 0 < frames && done == routines as usize,
        None => false,
    }
}

// Whether a line of this kind is in order after what was read: never where its kind is unknown.
pub fn in_order(last: u64, n: Counts, routines: u8, kind: Option<FrameKind>, l: Line) -> bool
    ensures { result ≡ ordered last n.frames routines n.nodes n.transitions (place_of kind) l }
{
    let x = key_of(kind, l);
    (last < x)
        && is_in_place(n.frames, routines, n.nodes, kind, l)
        && !(kind == Some(FrameKind::Row) && 0 < n.transitions)
}

// Whether the table that a line of this kind goes into is full: an unknown kind has none.
pub fn is_full(n: Counts, kind: Option<FrameKind>) -> bool
    ensures { result ≡ full n.edges n.transitions n.rows (place_of kind) }
{
    match kind {
        Some(FrameKind::Edge) => MAX_EDGES <= n.edges,
        Some(FrameKind::Transition) => MAX_TRANSITIONS <= n.transitions,
        Some(FrameKind::Row) => MAX_ROWS <= n.rows,
        _ => false,
    }
}

// Whether a line is an end frame whose count is wrong: none of another kind or of an unknown one is.
pub fn is_miscounted(frames: usize, kind: Option<FrameKind>, l: Line) -> bool
    ensures { result ≡ miscounted frames (place_of kind) l }
{
    let a = number(l, 1);
    let b = number(l, 2);
    kind == Some(FrameKind::End) && (a as usize) * 256 + (b as usize) != frames
}

// The ranges of a frame's numbers (5), and what bounds them.
#![tactic(auto)]

ghost use Rattle.std.specs.Prelude.{◌≡◌, get_or};
ghost use Rattle.rows.specs.Rows.{row_fits};
ghost use Rattle.program.specs.Program.{within, counts_fit, placed, edge_fits, transition_fits};
ghost use Rattle.program.specs.Reading.{edge_in, transition_in, row_in, ranged};
ghost use Rattle.program.specs.Decoded.{nodes_of};
ghost use Rattle.frames.specs.Kinds.{place_of};
ghost use Rattle.ranges.specs.Limits.{limits, limits_of};

use automaton::labels::{event_fits, label_fits};
use automaton::sizes::{MAX_ACTIONS, MAX_STATES};
use frames::{FrameKind, number, row_in};
use program::sizes::{MAX_NODES, MAX_ROUTINES};
use program::{DecodedProgram, Nodes};
use rows::row_fits;
use tables::in_use;
use text::Line;

// What bounds the numbers of a frame.
#[derive(Clone, Copy)]
pub struct Limits {
    pub routines: u8,
    pub states: u8,
    pub actions: u8,
    pub nodes: Nodes,
}

pub fn limits_of(p: DecodedProgram) -> Limits
    ensures { result ≡ limits p }
{
    let a = p.automaton;
    let nodes = p.nodes;
    Limits {
        routines: p.routines,
        states: a.states,
        actions: a.actions,
        nodes,
    }
}

fn inside(lo: u8, hi: u8, x: u8) -> bool
    ensures { result ≡ within lo hi x }
{
    (lo <= x) & (x <= hi)
}

fn node_count(n: Nodes, f: u8) -> u8
    ensures { result ≡ get_or (nodes_of n) f 0 }
{
    let list = n.list;
    let i = f as usize;
    if i < in_use(n.count, MAX_ROUTINES) {
        return list[i];
    }
    0
}

fn counts_fit(r: u8, q: u8, a: u8) -> bool
    ensures { result ≡ counts_fit r q a }
{
    inside(1, MAX_ROUTINES as u8, r)
        & inside(1, MAX_STATES as u8, q)
        & inside(1, MAX_ACTIONS as u8, a)
}

fn is_placed(nodes: u8, n: u8, m: u8) -> bool
    ensures { result ≡ placed nodes n m }
{
    (n < nodes) & (m < nodes) & !(n == 1)
}

pub fn edge_fits(h: Limits, l: Line) -> bool
    ensures { result ≡ edge_fits (limits_of h) (edge_in l) }
{
    let f = number(l, 1);
    let n = h.nodes;
    let nodes = node_count(n, f);
    (f < h.routines)
        & is_placed(nodes, number(l, 2), number(l, 4))
        & label_fits(h.routines, h.actions, number(l, 3))
}

fn transition_fits(h: Limits, l: Line) -> bool
    ensures { result ≡ transition_fits (limits_of h) (transition_in l) }
{
    (number(l, 1) < h.states)
        & event_fits(h.routines, h.actions, number(l, 2))
        & (number(l, 3) < h.states)
}

fn is_row_in_range(h: Limits, l: Line) -> bool
    ensures { result ≡ row_fits (limits_of h).automaton (row_in h.states l) }
{
    row_fits(row_in(h.states, l), h.states, h.actions)
}

// Whether the numbers of a frame of this kind are in range, by what bounds them: never where the kind is unknown.
pub fn in_range(h: Limits, kind: Option<FrameKind>, l: Line) -> bool
    ensures { result ≡ ranged (limits_of h) (place_of kind) l }
{
    let a = number(l, 1);
    let b = number(l, 2);
    match kind {
        Some(FrameKind::Header) => counts_fit(a, b, number(l, 3)),
        Some(FrameKind::Routine) => a < h.routines && inside(2, MAX_NODES as u8, b),
        Some(FrameKind::Edge) => edge_fits(h, l),
        Some(FrameKind::Transition) => transition_fits(h, l),
        Some(FrameKind::Row) => is_row_in_range(h, l),
        Some(FrameKind::Initial | FrameKind::Rejecting) => a < h.states,
        Some(FrameKind::End) => true,
        None => false,
    }
}

// What is known of an exchange's text after some of its lines, none of them bad, and what it says at its end.
ghost use Rattle.std.specs.Prelude.{◌≡◌, not, ltb, length};
ghost use Rattle.program.specs.Sizes.{max_edges};
ghost use Rattle.program.specs.Chosen.{sizes_fit};
ghost use Rattle.program.specs.Reading.{more};
ghost use Rattle.program.specs.Checks.{first_met};
ghost use Rattle.program.specs.Decoded.{edge_of, program_of};
ghost use Rattle.program.specs.Refusals.{number_met};
ghost use Rattle.ranges.specs.Limits.{limits_of};
ghost use Rattle.exchange.specs.Changing.{with_nodes};
ghost use Rattle.exchange_text.specs.Decoded.{read_of};
ghost use Rattle.exchange_text.specs.Parts.{edges_of, found_of, begun, found_after, too_many_in, later_rows, concluded};

use crate::line::{is_astray, is_outside};
use exchange::DecodedExchange;
use exchange::apply::{others_of, program_with_nodes};
use frames::{FrameKind, edge_in, key_of, kind_of, number};
use program::DecodedProgram;
use program::chosen::sizes_of;
use program::edges::{Edges, no_edges};
use program::refusal::Refusal;
use program::sizes::{MARKS_MOST, MAX_EDGES, length_of};
use ranges::Limits;
use tables::{in_use, with_entry};
use text::Line;

// The key of the frame before; whether a line was out of range (13), or astray (21); whether there were more edges than
// a table has room for (16), and those that have room.
#[derive(Clone, Copy)]
pub struct Scan {
    pub last: u64,
    pub outside: bool,
    pub astray: bool,
    pub crowded: bool,
    pub edges: Edges,
}

// After the first line, by what bounds the numbers.
pub fn start_scan(h: Limits, first: Line) -> Scan
    ensures { found_of result ≡ begun (limits_of h) first }
{
    Scan {
        last: 0,
        outside: is_outside(h, first),
        astray: kind_of(first) != Some(FrameKind::Routine),
        crowded: false,
        edges: no_edges(),
    }
}

// One edge more, while there is room.
fn add_edge(t: Edges, key: u32) -> Edges
    ensures { edges_of result ≡ more (ltb (length (edges_of t)) max_edges) (edge_of key) (edges_of t) }
{
    if t.count < MAX_EDGES {
        let mut keys = t.keys;
        let count = with_entry(&mut keys, t.count, key);
        Edges { count, keys }
    } else {
        t
    }
}

// After one line more of the exchange of routine f. A text may have any number of lines: what finds no room is not
// kept.
pub fn after_line(s: Scan, h: Limits, f: u8, l: Line) -> Scan
    ensures { found_of result ≡ found_after (limits_of h) f (found_of s) l }
{
    Scan {
        last: key_of(kind_of(l), l),
        outside: s.outside || is_outside(h, l),
        astray: s.astray || is_astray(f, s.last, l),
        crowded: s.crowded || MAX_EDGES <= s.edges.count,
        edges: add_edge(s.edges, edge_in(l)),
    }
}

// 16: the new program would have more than 256 edges.
fn has_too_many(p: DecodedProgram, f: u8, s: Scan) -> bool
    ensures { result ≡ too_many_in (program_of p) f (found_of s) }
{
    let kept = others_of(p.edges, f);
    s.crowded || MAX_EDGES < kept.count + in_use(s.edges.count, MAX_EDGES)
}

// 23: the product of the new program's sizes is too large.
fn is_too_large(p: DecodedProgram, f: u8, nodes: u8) -> bool
    ensures { result ≡ not (sizes_fit (with_nodes (program_of p) f nodes)) }
{
    let changed = program_with_nodes(p, f, nodes);
    MARKS_MOST < length_of(sizes_of(changed))
}

// The first of the refusals after 12 that is met.
#[tactic(auto, unfolding(program::specs::Checks::first_met))]
fn refusal_by(outside: bool, astray: bool, many: bool, large: bool) -> Result<(), Refusal>
    ensures { number_met result ≡ first_met (later_rows outside astray many large) }
{
    if outside {
        return Err(Refusal::EditRange);
    }
    if astray {
        return Err(Refusal::ExchangeOrder);
    }
    if many {
        return Err(Refusal::EdgesFull);
    }
    if large {
        return Err(Refusal::TooLarge);
    }
    Ok(())
}

// After the last line: the first refusal that is met, and else the exchange.
pub fn conclude(p: DecodedProgram, first: Line, s: Scan) -> Result<DecodedExchange, Refusal>
    ensures { read_of result ≡ concluded (program_of p) first (found_of s) }
{
    let f = number(first, 1);
    let nodes = number(first, 2);
    let many = has_too_many(p, f, s);
    let large = is_too_large(p, f, nodes);
    refusal_by(s.outside, s.astray, many, large)?;
    Ok(DecodedExchange {
        routine: f,
        nodes,
        edges: s.edges,
    })
}

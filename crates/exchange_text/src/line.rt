// One line of an exchange's text: its refusals (12, 13 and 21), and what bounds its numbers.
ghost use Rattle.std.specs.Prelude.{◌≡◌, [], ◌∷◌};
ghost use Rattle.program.specs.Frames.{num};
ghost use Rattle.ranges.specs.Limits.{limits_of};
ghost use Rattle.exchange.specs.Changing.{with_nodes};
ghost use Rattle.exchange_text.specs.ExchangeText.{bad_frame, bounded_by, outside, astray};

use exchange::apply::with_nodes;
use frames::{FrameKind, key_of, kind_of, number, size_of};
use ranges::{Limits, in_range};
use text::Line;

// 12: a line that is not of hexadecimal, a kind other than 52 and 53, or a wrong count of numbers.
pub fn is_bad(l: Line) -> bool
    ensures { result ≡ bad_frame l }
{
    let kind @ Some(FrameKind::Routine | FrameKind::Edge) = kind_of(l) else {
        return true;
    };
    l.count == 0 || l.count != size_of(0, kind)
}

// 13, by what bounds the numbers: no more of a program has to be known.
pub fn is_outside(h: Limits, l: Line) -> bool
    ensures { result ≡ outside (limits_of h) l }
{
    !in_range(h, kind_of(l), l)
}

// 21, for a line after the first: it is no edge of routine f above the one before it.
pub fn is_astray(f: u8, last: u64, l: Line) -> bool
    ensures { result ≡ astray f last l }
{
    let kind = kind_of(l);
    kind != Some(FrameKind::Edge) || number(l, 1) != f || key_of(kind, l) <= last
}

// With the count of nodes that a frame 52 says.
fn with_count(h: Limits, l: Line) -> Limits
    ensures { limits_of result ≡ with_nodes (limits_of h) (num l 1) (num l 2) }
{
    let nodes = with_nodes(h.nodes, number(l, 1), number(l, 2));
    Limits { nodes, ..h }
}

// What bounds all lines, by the first: a leading frame 52's count of nodes is taken for its routine.
pub fn bounded_by(h: Limits, first: Line) -> Limits
    ensures { limits_of result ≡ bounded_by (first ∷ []) (limits_of h) }
{
    if kind_of(first) == Some(FrameKind::Routine) {
        with_count(h, first)
    } else {
        h
    }
}

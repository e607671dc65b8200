// Marked configurations as frames, a line each.
#![tactic(auto)]

ghost use Rattle.std.specs.Prelude.{◌≡◌, [], map, ◌<◌, length, get_or};
ghost use Rattle.automaton.specs.Sizes.{max_states};
ghost use Rattle.program.specs.Chosen.{numbers, Admitted};
ghost use Rattle.reach.specs.Configurations.{Usable};
ghost use Rattle.reach.specs.Marks.{front_when};
ghost use Rattle.text.specs.Lines.{line_of};
ghost use Rattle.writer.specs.Parts.{RoomFor, Put};
ghost use Rattle.listing.specs.Listing.{frame_at, is_listed, listing};

use program::sizes::Sizes;
use reach::configuration::{parts_of, state_of};
use text::{Line, put_line};

// Each line has so many bytes: five numbers, two digits each, and 0A.
pub const LINE_SIZE: usize = 11;

// The line of a configuration. Only a number of the marks has parts of its own: hence the `requires`.
pub fn frame_line(kind: u8, z: Sizes, i: usize) -> Line
    requires { Usable z × (i < numbers z) }
    ensures { result ≡ line_of (frame_at kind z i) }
{
    let c = parts_of(z, i);
    let numbers = [kind, c.routine, c.node, c.root, c.state, 0, 0, 0];
    Line { count: 5, numbers }
}

// The line of configuration i where it is marked and its present state has a flag; else nothing.
fn put_listed(
    kind: u8,
    z: Sizes,
    marks: &[u8],
    states: &[u8],
    i: usize,
    out: &mut [u8],
    at: usize,
) -> usize
    requires { Usable z × Admitted z × (i < numbers z) × (length marks.now ≡ numbers z)
        × (length states.now ≡ max_states)
        × RoomFor (map (frame_at kind z) (front_when (is_listed z states.now (get_or marks.now i 0) i) i [])) out.old at }
    ensures { Put (map (frame_at kind z)
        (front_when (is_listed z states.now (get_or marks.now i 0) i) i [])) out.old
        out.new at result }
{
    let is_listed = marks[i] != 0 && states[state_of(z, i)] != 0;
    if is_listed {
        put_line(out, at, frame_line(kind, z, i))
    } else {
        at
    }
}

// The lines of all marked configurations whose present state has a flag, ascending, at the output's start: one pass
// over the marks. The caller has measured both: hence the `requires`.
pub fn put_listing(kind: u8, z: Sizes, marks: &[u8], states: &[u8], out: &mut [u8]) -> usize
    requires { Usable z × Admitted z × (length marks.now ≡ numbers z) × (length states.now ≡ max_states)
        × RoomFor (listing kind z states.now marks.now) out.old 0 }
    ensures { Put (listing kind z states.now marks.now) out.old
        out.new 0 result }
{
    let mut at: usize = 0;
    for i in 0..marks.len() {
        at = put_listed(kind, z, marks, states, i, out, at);
    }
    at
}

// Who waits for a summary: whatever is marked before a call that can give its root becomes pending again.
#![tactic(auto)]

ghost use Rattle.std.specs.Prelude.{◌<◌, length, get_or};
ghost use Rattle.index.specs.Index.{Indexed};
ghost use Rattle.program.specs.Sizes.{max_routines};
ghost use Rattle.program.specs.Decoded.{edge_of, edge_view};
ghost use Rattle.marking.specs.Parts.{Becomes, Lowers, each};
ghost use Rattle.callers.specs.Parts.{state_step, caller_step};

use automaton::next::next_after;
use base::bits::has_bit;
use index::{first_caller, next_caller};
use marking::wake_roots;
use program::edges::{DecodedEdge, edge};
use program::sizes::Sizes;
use reach::configuration::number_of;

// Everything at the node of a call in a state from which the call can give root r.
fn wake_states(
    z: Sizes,
    next: &[u16],
    marks: &[u8],
    pending: &mut [u64],
    e: DecodedEdge,
    r: u8,
    low: usize,
) -> usize
    ensures { Becomes (each (state_step z next.now r (edge_view e)) z.states 0)
        marks.now pending.old marks.now pending.new
        × Lowers pending.old low pending.new result }
{
    let states = z.states;
    let mut lowest = low;
    for x in 0..states {
        let roots = next_after(next, x, e.label);
        if has_bit(r, roots as u64) {
            let base = number_of(z, e.routine, e.source, 0, x);
            lowest = wake_roots(states, marks, pending, base, lowest);
        }
    }
    lowest
}

// Every configuration from which an edge calls routine f and the call can give root r. The index is that of the keys,
// and has this routine: hence the `requires`.
pub fn wake_callers(
    z: Sizes,
    keys: &[u32],
    index: &[u16],
    next: &[u16],
    marks: &[u8],
    pending: &mut [u64],
    f: u8,
    r: u8,
    low: usize,
) -> usize
    requires { Indexed keys.now index.now × (f < max_routines) }
    ensures { Becomes (each (λ i. caller_step z next.now f r (edge_of (get_or keys.now i 0)))
        (length keys.now) 0)
        marks.now pending.old marks.now pending.new
        × Lowers pending.old low pending.new result }
{
    let mut lowest = low;
    let mut i = first_caller(index, f);
    while i < keys.len() {
        let e = edge(keys[i]);
        lowest = wake_states(z, next, marks, pending, e, r, lowest);
        i = next_caller(index, i);
    }
    lowest
}

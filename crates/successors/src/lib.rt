// What follows from one configuration: by each edge from its node what the automaton allows is marked, and, where the
// edge is a call, the entry of the called routine and the results of its known summaries.
#![tactic(auto)]

ghost use Rattle.std.specs.Prelude.{◌<◌, ◌≤◌, length, get_or};
ghost use Rattle.automaton.specs.Sizes.{max_states};
ghost use Rattle.index.specs.Index.{Indexed};
ghost use Rattle.program.specs.Sizes.{max_routines, max_nodes};
ghost use Rattle.program.specs.Decoded.{edge_of};
ghost use Rattle.reach.specs.Configurations.{byte_numbers};
ghost use Rattle.marking.specs.Parts.{Becomes, Lowers, each};
ghost use Rattle.successors.specs.Parts.{summary_step, entry_step, call_step, label_step, edge_step};

use automaton::next::next_after;
use automaton::sizes::{FIRST_CALL, FIRST_RETURN};
use index::{first_edge, next_edge};
use marking::{lowest_state, mark, mark_each};
use program::edges::{called_by, edge, is_call};
use program::sizes::{MAX_ROUTINES, Sizes};
use reach::configuration::{Configuration, entry_of, narrow, number_of, summary_of};
use words::bits_from;

// What a call of g that gave root y gives by its known summaries: the results of the return from each. A summary ends
// before the return's move. The flags of the next root follow those of this one: past the states nothing is followed.
// One word has the flags of a root: hence the bound on the states, here and in what calls this.
fn follow_summaries(
    z: Sizes,
    next: &[u16],
    known: &[u64],
    marks: &mut [u8],
    pending: &mut [u64],
    base: usize,
    g: u8,
    y: u8,
    low: usize,
) -> usize
    requires { (base < byte_numbers) × (g < max_routines) × (z.states ≤ max_states) }
    ensures { Becomes (each (summary_step z next.now known.now base g y) z.states 0)
        marks.old pending.old marks.new pending.new
        × Lowers pending.old low pending.new result }
{
    let states = z.states;
    let mut lowest = low;
    let mut left = bits_from(known, summary_of(z, g, y, 0));
    let mut s: usize = 0;
    while left != 0 {
        let k = lowest_state(left);
        if states as usize <= s + k {
            return lowest;
        }
        let x = narrow(s + k);
        let results = next_after(next, x, FIRST_RETURN + g);
        lowest = mark_each(z.states, results, marks, pending, base, lowest);
        left = (left >> k) / 2;
        s += k + 1;
    }
    lowest
}

// What a call of g that gave root y gives: the entry with that root, and what its known summaries give.
fn follow_entry(
    z: Sizes,
    next: &[u16],
    known: &[u64],
    marks: &mut [u8],
    pending: &mut [u64],
    base: usize,
    g: u8,
    y: u8,
    low: usize,
) -> usize
    requires { (base < byte_numbers) × (g < max_routines) × (z.states ≤ max_states) }
    ensures { Becomes (entry_step z next.now known.now base g y)
        marks.old pending.old marks.new pending.new
        × Lowers pending.old low pending.new result }
{
    let entry = entry_of(z, g, y);
    let lowest = mark(marks, pending, entry, low);
    follow_summaries(z, next, known, marks, pending, base, g, y, lowest)
}

// A call of g in state q: every root that its move gives.
fn follow_call(
    z: Sizes,
    next: &[u16],
    known: &[u64],
    marks: &mut [u8],
    pending: &mut [u64],
    base: usize,
    g: u8,
    q: u8,
    low: usize,
) -> usize
    requires { (base < byte_numbers) × (g < max_routines) × (z.states ≤ max_states) }
    ensures { Becomes (call_step z next.now known.now base g q)
        marks.old pending.old marks.new pending.new
        × Lowers pending.old low pending.new result }
{
    let mut lowest = low;
    let mut left = next_after(next, q, FIRST_CALL + g);
    for y in 0..z.states {
        if left == 0 {
            return lowest;
        }
        if left % 2 == 1 {
            lowest = follow_entry(z, next, known, marks, pending, base, g, y, lowest);
        }
        left /= 2;
    }
    lowest
}

fn follow_label(
    z: Sizes,
    next: &[u16],
    known: &[u64],
    marks: &mut [u8],
    pending: &mut [u64],
    base: usize,
    q: u8,
    label: u8,
    low: usize,
) -> usize
    requires { (base < byte_numbers) × (z.states ≤ max_states) }
    ensures { Becomes (label_step z next.now known.now base q label)
        marks.old pending.old marks.new pending.new
        × Lowers pending.old low pending.new result }
{
    if is_call(label) {
        let g = called_by(label);
        if g < MAX_ROUTINES as u8 {
            follow_call(z, next, known, marks, pending, base, g, q, low)
        } else {
            low
        }
    } else {
        let results = next_after(next, q, label);
        mark_each(z.states, results, marks, pending, base, low)
    }
}

// Every edge from the node of a configuration, as the index has them. The index is that of the keys, and has this
// node: hence the `requires`.
pub fn follow_edges(
    z: Sizes,
    keys: &[u32],
    index: &[u16],
    next: &[u16],
    known: &[u64],
    marks: &mut [u8],
    pending: &mut [u64],
    c: Configuration,
    low: usize,
) -> usize
    requires { Indexed keys.now index.now × (c.routine < max_routines) × (c.node < max_nodes)
        × (z.states ≤ max_states) }
    ensures { Becomes (each (λ i. edge_step z next.now known.now
        c.routine c.node c.root c.state (edge_of (get_or keys.now i 0)))
        (length keys.now) 0)
        marks.old pending.old marks.new pending.new
        × Lowers pending.old low pending.new result }
{
    let mut lowest = low;
    let mut i = first_edge(index, c.routine, c.node);
    while i < keys.len() {
        let e = edge(keys[i]);
        let base = number_of(z, c.routine, e.target, c.root, 0);
        lowest = follow_label(
            z, next, known, marks, pending, base, c.state, e.label, lowest,
        );
        i = next_edge(index, i);
    }
    lowest
}

// Configurations are marked, and marked ones are set pending again. What is pending is a bit for each configuration,
// in words. Each function returns a number below which nothing is pending, if there was nothing below the one it was
// given. None asks for the length of the marks: a number past them marks nothing. A base is a configuration's number:
// hence each `requires`.
#![tactic(auto)]

ghost use Rattle.std.specs.Prelude.{◌<◌};
ghost use Rattle.reach.specs.Configurations.{byte_numbers};
ghost use Rattle.reach.specs.Worklist.{mark as marked, wake as woken};
ghost use Rattle.marking.specs.Parts.{Becomes, Lowers, each, LowestOf, mark_state, wake_at};

use words::set_at;

// Room for a bit for each configuration, at most 16,384 of them.
pub const PENDING_WORDS: usize = 256;

// Room for a bit for each summary, at most 16 times 16 times 16 of them.
pub const KNOWN_WORDS: usize = 64;

// Marks a configuration; where it was not marked, it becomes pending.
pub fn mark(marks: &mut [u8], pending: &mut [u64], at: usize, low: usize) -> usize
    ensures { Becomes (marked at)
        marks.old pending.old marks.new pending.new
        × Lowers pending.old low pending.new result }
{
    if at < marks.len() && marks[at] == 0 {
        marks[at] = 1;
        set_at(pending, at);
        low.min(at)
    } else {
        low
    }
}

// The lowest state of a set that is not empty.
pub fn lowest_state(set: u64) -> usize
    ensures { LowestOf set result }
{
    set.trailing_zeros() as usize
}

// Marks base + s for each state s of a set, the lowest of what is left of it each time. A set has no other bits, but
// the table could be any: past the states nothing is marked.
pub fn mark_each(
    states: u8,
    set: u16,
    marks: &mut [u8],
    pending: &mut [u64],
    base: usize,
    low: usize,
) -> usize
    requires { base < byte_numbers }
    ensures { Becomes (each (mark_state set base) states 0)
        marks.old pending.old marks.new pending.new
        × Lowers pending.old low pending.new result }
{
    let mut lowest = low;
    let mut left = set as u64;
    let mut s: usize = 0;
    while left != 0 {
        let k = lowest_state(left);
        if states as usize <= s + k {
            return lowest;
        }
        lowest = mark(marks, pending, base + (s + k), lowest);
        left = (left >> k) / 2;
        s += k + 1;
    }
    lowest
}

// Sets a marked configuration pending again.
fn wake(marks: &[u8], pending: &mut [u64], at: usize, low: usize) -> usize
    ensures { Becomes (woken at)
        marks.now pending.old marks.now pending.new
        × Lowers pending.old low pending.new result }
{
    if at < marks.len() && marks[at] != 0 {
        set_at(pending, at);
        low.min(at)
    } else {
        low
    }
}

// Wakes what has the same node and state as the base, whatever its root.
pub fn wake_roots(states: u8, marks: &[u8], pending: &mut [u64], base: usize, low: usize) -> usize
    requires { base < byte_numbers }
    ensures { Becomes (each (wake_at states base) states 0)
        marks.now pending.old marks.now pending.new
        × Lowers pending.old low pending.new result }
{
    let states = states as usize;
    let mut lowest = low;
    for r in 0..states {
        lowest = wake(marks, pending, base + states * r, lowest);
    }
    lowest
}

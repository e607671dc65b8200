// What is asked of the kept configurations while support is sought: whether a move leads on from one, whether one calls
// and gives a root, whether one calls and is returned to. `next` has the sets of next states of the automaton: by them
// actions, calls and returns move.
#![tactic(auto)]

ghost use Rattle.std.specs.Prelude.{◌≡◌, ◌<◌};
ghost use Rattle.base.specs.Bits.{bit};
ghost use Rattle.automaton.specs.NextStates.{set_at};
ghost use Rattle.program.specs.Sizes.{max_routines};
ghost use Rattle.program.specs.Decoded.{edge_view};
ghost use Rattle.reach.specs.Configurations.{byte_numbers};
ghost use Rattle.kept.specs.Parts.{root_kept, caller_kept, move_kept, exit_kept, root_returns, return_kept};

use automaton::next::next_after;
use automaton::sizes::{FIRST_CALL, FIRST_RETURN};
use base::bits::has_bit;
use base::flags::is_set;
use program::edges::DecodedEdge;
use program::sizes::{MAX_ROUTINES, Sizes};
use reach::configuration::number_of;

// Whether label l may lead from state x to state s.
fn may_go(next: &[u16], x: u8, l: u8, s: u8) -> bool
    ensures { result ≡ bit s (set_at next.now x l) }
{
    has_bit(s, next_after(next, x, l) as u64)
}

// Whether some root of the configurations from a number on is kept. The number is one of a configuration: hence the
// `requires`.
fn root_kept(z: Sizes, kept: &[u8], base: usize) -> bool
    requires { base < byte_numbers }
    ensures { result ≡ root_kept z kept.now base }
{
    let states = z.states as usize;
    (0..states).any(|x| is_set(kept, base + states * x))
}

// Whether from some state the edge's call gives root r, and its source is kept in that state.
pub fn caller_kept(z: Sizes, next: &[u16], kept: &[u8], e: DecodedEdge, r: u8) -> bool
    ensures { result ≡ caller_kept z next.now kept.now (edge_view e) r }
{
    (0..z.states).any(|x| {
        may_go(next, x, e.label, r) && root_kept(z, kept, number_of(z, e.routine, e.source, 0, x))
    })
}

// Whether the configuration from a number on is kept in state x, and label l may lead from x to t. The number is one of
// a configuration: hence the `requires`.
pub fn move_kept(next: &[u16], kept: &[u8], base: usize, x: u8, l: u8, t: u8) -> bool
    requires { base < byte_numbers }
    ensures { result ≡ move_kept next.now kept.now base x l t }
{
    is_set(kept, base + x as usize) && may_go(next, x, l, t)
}

// Whether for some state the exit from a number on is kept in it, and a return of label l leads from it to t. The
// number is one of a configuration: hence the `requires`.
fn exit_kept(z: Sizes, next: &[u16], kept: &[u8], exit: usize, l: u8, t: u8) -> bool
    requires { exit < byte_numbers }
    ensures { result ≡ exit_kept z next.now kept.now exit l t }
{
    (0..z.states).any(|x| move_kept(next, kept, exit, x, l, t))
}

// Whether from state y the call of g gives some root with which g returns to state t. A routine past the sizes has no
// labels: hence the `requires`.
fn root_returns(z: Sizes, next: &[u16], kept: &[u8], y: u8, g: u8, t: u8) -> bool
    requires { g < max_routines }
    ensures { result ≡ root_returns z next.now kept.now y g t }
{
    let roots = next_after(next, y, FIRST_CALL + g) as u64;
    (0..z.states).any(|s| {
        has_bit(s, roots) && exit_kept(z, next, kept, number_of(z, g, 1, s, 0), FIRST_RETURN + g, t)
    })
}

// Whether for some state the caller from a number on is kept in it, and a call of g from it returns to state t. A
// routine past the sizes never returns: it has no labels. The number is one of a configuration: hence the `requires`.
pub fn return_kept(z: Sizes, next: &[u16], kept: &[u8], caller: usize, g: u8, t: u8) -> bool
    requires { caller < byte_numbers }
    ensures { result ≡ return_kept z next.now kept.now caller g t }
{
    (g as usize) < MAX_ROUTINES
        && (0..z.states).any(|y| {
            is_set(kept, caller + y as usize) && root_returns(z, next, kept, y, g, t)
        })
}

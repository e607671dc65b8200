// Whether a configuration (f, n, r, q) has support through kept ones: the search over edges and states.
#![tactic(auto)]

ghost use Rattle.std.specs.Prelude.{◌≡◌, ◌<◌};
ghost use Rattle.program.specs.Sizes.{max_routines};
ghost use Rattle.program.specs.Decoded.{edge_view};
ghost use Rattle.support.specs.Parts.{entry_supports, return_supports, call_supports, states_to_try, supports, PartOf};

use automaton::sizes::FIRST_CALL;
use kept::{caller_kept, move_kept, return_kept};
use program::edges::{DecodedEdge, called_by, edge, is_call};
use program::sizes::Sizes;
use reach::configuration::{Configuration, number_of};

// A called entry has support where a call that gives its root is made, whether it returns or not. A routine past the
// sizes has no label: hence the `requires`.
#[tactic(auto, unfolding(crate::specs::Parts::entry_supports))]
fn entry_supports(z: Sizes, next: &[u16], kept: &[u8], e: DecodedEdge, c: Configuration) -> bool
    requires { c.routine < max_routines }
    ensures { result ≡ entry_supports z next.now kept.now (edge_view e) c.routine c.node
        c.root c.state }
{
    c.node == 0
        && c.root == c.state
        && e.label == FIRST_CALL + c.routine
        && caller_kept(z, next, kept, e, c.root)
}

// After a call there is support where the caller is kept, and an exit of the called routine from which it returns.
#[tactic(auto, unfolding(crate::specs::Parts::return_supports))]
fn return_supports(z: Sizes, next: &[u16], kept: &[u8], e: DecodedEdge, c: Configuration) -> bool
    ensures { result ≡ return_supports z next.now kept.now (edge_view e) c.routine c.node
        c.root c.state }
{
    if e.routine == c.routine && e.target == c.node && is_call(e.label) {
        let caller = number_of(z, c.routine, e.source, c.root, 0);
        return_kept(z, next, kept, caller, called_by(e.label), c.state)
    } else {
        false
    }
}

// By a call the edge gives support in two ways. The routine is in range, as that of an entry has to be: hence the
// `requires`.
#[tactic(auto, unfolding(crate::specs::Parts::call_supports))]
fn call_supports(z: Sizes, next: &[u16], kept: &[u8], e: DecodedEdge, c: Configuration) -> bool
    requires { c.routine < max_routines }
    ensures { result ≡ call_supports z next.now kept.now (edge_view e) c.routine c.node
        c.root c.state }
{
    entry_supports(z, next, kept, e, c) || return_supports(z, next, kept, e, c)
}

// How many states before are to be tried: none for an edge that is no action or leads elsewhere.
#[tactic(auto, unfolding(crate::specs::Parts::states_to_try))]
fn states_to_try(z: Sizes, e: DecodedEdge, f: u8, n: u8) -> u8
    ensures { result ≡ states_to_try z (edge_view e) f n }
{
    if e.routine == f && e.target == n && !is_call(e.label) {
        z.states
    } else {
        0
    }
}

// The search ends at the first support found: a labelled break leaves both loops. The configuration is in range: hence
// the `requires`.
fn supported(z: Sizes, keys: &[u32], next: &[u16], kept: &[u8], c: Configuration) -> bool
    requires { c.routine < max_routines }
    ensures { result ≡ supports z keys.now next.now kept.now c.routine c.node
        c.root c.state }
{
    let mut found = false;
    'scan: for key in keys {
        let e = edge(*key);
        if call_supports(z, next, kept, e, c) {
            found = true;
            break 'scan;
        }
        let end = states_to_try(z, e, c.routine, c.node);
        let base = number_of(z, c.routine, e.source, c.root, 0);
        for x in 0..end {
            if move_kept(next, kept, base, x, e.label, c.state) {
                found = true;
                break 'scan;
            }
        }
    }
    found
}

// A called entry may have its support in any routine: the whole table is searched. Every other configuration has it by
// the edges of its own routine alone, and `part` has these: a shorter search gives the same answer. The caller has cut
// the part out of the table, and the configuration is in range: hence the `requires`.
pub fn has_support(
    z: Sizes,
    keys: &[u32],
    part: &[u32],
    next: &[u16],
    kept: &[u8],
    c: Configuration,
) -> bool
    requires { (c.routine < max_routines) × PartOf keys.now c.routine part.now }
    ensures { result ≡ supports z keys.now next.now kept.now c.routine c.node
        c.root c.state }
{
    if c.node == 0 && c.root == c.state {
        supported(z, keys, next, kept, c)
    } else {
        supported(z, part, next, kept, c)
    }
}

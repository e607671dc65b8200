// Where marks say that runs are cut off: the search for the first such configuration, and for the edge that the
// automaton does not allow there.
#![tactic(auto)]

ghost use Rattle.std.specs.Prelude.{◌≡◌, true, false, ◌≤◌, ◌<◌, length, MatchOption};
ghost use Rattle.program.specs.Sizes.{max_routines, max_nodes};
ghost use Rattle.program.specs.Chosen.{numbers, Admitted};
ghost use Rattle.program.specs.Program.{Program};
ghost use Rattle.program.specs.WellFormed.{WellFormed};
ghost use Rattle.program.specs.Decoded.{edge_view, program_of};
ghost use Rattle.reach.specs.Configurations.{Usable};
ghost use Rattle.reach.specs.Ranged.{Sized};
ghost use Rattle.index.specs.Index.{Indexed};
ghost use Rattle.support.specs.Parts.{Tables};
ghost use Rattle.blocked.specs.Blocks.{is_blocked, blocked_by, block_from};
ghost use Rattle.blocked.specs.BlockView.{block_view};
ghost use Rattle.blocked.specs.Parts.{first_key_of, calls_with, called_key, no_return_key};

use automaton::next::{next_after, next_states};
use automaton::sizes::{FIRST_CALL, FIRST_RETURN};
use index::{first_edge, index_of, next_edge};
use kept::caller_kept;
use program::DecodedProgram;
use program::edges::{DecodedEdge, edge};
use program::sizes::{MAX_EDGES, Sizes};
use reach::configuration::{Configuration, parts_of};
use tables::in_use;

// Told in the place of an edge where it is the return that is not allowed.
pub const NO_EDGE: usize = 4294967295;

// Where runs are cut off: the number of the configuration, and the place of the edge.
#[derive(Clone, Copy, Debug, PartialEq, Eq)]
pub struct Blocked {
    pub number: usize,
    pub edge: usize,
}

// The first edge from a configuration's node that the automaton does not allow in its state, if there is one. The index
// is that of the keys, and has this node: hence the `requires`.
fn first_barred(keys: &[u32], index: &[u16], next: &[u16], c: Configuration) -> Option<usize>
    requires { Indexed keys.now index.now × (c.routine < max_routines) × (c.node < max_nodes) }
    ensures { MatchOption result (length keys.now ≤ first_key_of keys.now next.now c.routine c.node c.state)
        (λ at. (at ≡ first_key_of keys.now next.now c.routine c.node c.state) × (at < length keys.now)) }
{
    let mut i = first_edge(index, c.routine, c.node);
    while i < keys.len() {
        let e = edge(keys[i]);
        if next_after(next, c.state, e.label) == 0 {
            return Some(i);
        }
        i = next_edge(index, i);
    }
    None
}

// Whether this edge calls g with root s from a marked configuration. A routine past the sizes has no label: hence the
// `requires`, here and in what calls this.
#[tactic(auto, unfolding(crate::specs::Parts::calls_with))]
fn calls_with(z: Sizes, next: &[u16], marks: &[u8], e: DecodedEdge, g: u8, s: u8) -> bool
    requires { g < max_routines }
    ensures { result ≡ calls_with z next.now marks.now g s (edge_view e) }
{
    e.label == FIRST_CALL + g && caller_kept(z, next, marks, e, s)
}

// Whether some marked configuration calls g with root s.
fn is_called(z: Sizes, keys: &[u32], next: &[u16], marks: &[u8], g: u8, s: u8) -> bool
    requires { g < max_routines }
    ensures { result ≡ called_key z keys.now next.now marks.now g s }
{
    for key in keys {
        if calls_with(z, next, marks, edge(*key), g, s) {
            return true;
        }
    }
    false
}

// Whether the exit of an activation that was called does not return.
#[tactic(auto, unfolding(crate::specs::Parts::no_return_key))]
fn has_no_return(z: Sizes, keys: &[u32], next: &[u16], marks: &[u8], c: Configuration) -> bool
    requires { c.routine < max_routines }
    ensures { result ≡ no_return_key z keys.now next.now marks.now c.routine c.node
        c.root c.state }
{
    c.node == 1
        && next_after(next, c.state, FIRST_RETURN + c.routine) == 0
        && is_called(z, keys, next, marks, c.routine, c.root)
}

// The place of the edge by which runs are cut off at the configuration of number i, if they are. The marks have been
// measured, and the index is that of the keys: hence the `requires`.
fn cut_of(
    z: Sizes,
    keys: &[u32],
    index: &[u16],
    next: &[u16],
    marks: &[u8],
    i: usize,
) -> Option<usize>
    requires { Usable z × Admitted z × (i < numbers z) × (length marks.now ≡ numbers z)
        × Indexed keys.now index.now }
    ensures { (p : Program) → Tables z p keys.now next.now
        → MatchOption result (is_blocked z p marks.now i ≡ false)
        (λ edge. (is_blocked z p marks.now i ≡ true) × (edge ≡ blocked_by z p i)) }
{
    if marks[i] == 0 {
        return None;
    }
    let c = parts_of(z, i);
    if let Some(first) = first_barred(keys, index, next, c) {
        Some(first)
    } else if has_no_return(z, keys, next, marks, c) {
        Some(NO_EDGE)
    } else {
        None
    }
}

// The numbers from `low` on are tried in turn. The marks have been measured, and the index is that of the keys: hence
// the `requires`.
fn search_marks(
    z: Sizes,
    keys: &[u32],
    index: &[u16],
    next: &[u16],
    marks: &[u8],
    low: usize,
) -> Option<Blocked>
    requires { Usable z × Admitted z × (length marks.now ≡ numbers z) × Indexed keys.now index.now }
    ensures { (p : Program) → Tables z p keys.now next.now
        → block_from z p marks.now low ≡ block_view result }
{
    for i in low..marks.len() {
        if let Some(edge) = cut_of(z, keys, index, next, marks, i) {
            return Some(Blocked { number: i, edge });
        }
    }
    None
}

// The first configuration from `low` on at which runs are cut off, by these marks, if there is one. The reader accepts only well-formed
// programs, and the caller has measured the marks (refusal 9): hence the `requires`.
pub fn first_blocked(z: Sizes, p: DecodedProgram, marks: &[u8], low: usize) -> Option<Blocked>
    requires { WellFormed (program_of p) × Sized z (program_of p) × (length marks.now ≡ numbers z) }
    ensures { block_from z (program_of p) marks.now low ≡ block_view result }
{
    let rule = p.automaton;
    let edges = p.edges;
    let keys = edges.keys;
    let count = in_use(edges.count, MAX_EDGES);
    let table = next_states(rule, p.routines);
    let next = table.sets;
    let steps = &keys[..count];
    let chained = index_of(steps);
    let index = chained.places;
    search_marks(z, steps, &index, &next, marks, low)
}

// An index of a table of edges: the edges from one node, and those that call one routine, each as a chained list in
// the order of the table. Whoever asks for these goes over no other edge. The edges of one routine are a part of the
// table, and it is found by where it begins.
#![tactic(auto)]

pub mod part;
pub mod sizes;

ghost use Rattle.std.specs.Prelude.{◌≡◌, ◌+◌, ◌≤◌, ◌<◌, length, get_or};
ghost use Rattle.program.specs.Sizes.{max_edges};
ghost use Rattle.program.specs.Decoded.{edge_of};
ghost use Rattle.index.specs.Index.{node_place, routine_place, edge_place, caller_place, index_size, Indexed};
ghost use Rattle.index.specs.Linked.{linked, with_edge, with_caller, with_key};

use program::edges::{called_by, edge, is_call};
use program::sizes::{MAX_NODES, MAX_ROUTINES};
use sizes::{FIRST_CALLERS, INDEX_SIZE, NEXT_CALLERS, NEXT_EDGES};

// An edge is its number in the table, and the count of edges stands for none.
#[derive(Clone, Copy)]
pub struct Index {
    pub places: [u16; INDEX_SIZE],
}

// Edge i goes before the first of a list. Both places are the index's own: hence the `requires`.
#[tactic(auto, unfolding(crate::specs::Linked::linked))]
fn link(index: &mut [u16], first: usize, next: usize, i: u16)
    requires { (first < length index.old) × (next < length index.old) }
    ensures { index.new ≡ linked first next i index.old }
{
    index[next] = index[first];
    index[first] = i;
}

// Edge i leads from node n of routine f. Outside the sizes there is no node, and its place would be another's. There
// is a place for so many edges: hence the `requires`.
#[tactic(auto, unfolding(crate::specs::Linked::with_edge))]
fn link_edge(index: &mut [u16], f: u8, n: u8, i: u16)
    requires { (length index.old ≡ index_size) × (i < max_edges) }
    ensures { index.new ≡ with_edge f n i index.old }
{
    let f = usize::from(f);
    let n = usize::from(n);
    if f < MAX_ROUTINES && n < MAX_NODES {
        link(index, f * MAX_NODES + n, NEXT_EDGES + usize::from(i), i);
    }
}

// Edge i has this label. That of an action calls no routine; outside the sizes there is none, and its place would be
// another's. There is a place for so many edges: hence the `requires`.
#[tactic(auto, unfolding(crate::specs::Linked::with_caller))]
fn link_caller(index: &mut [u16], label: u8, i: u16)
    requires { (length index.old ≡ index_size) × (i < max_edges) }
    ensures { index.new ≡ with_caller label i index.old }
{
    if is_call(label) {
        let g = usize::from(called_by(label));
        if g < MAX_ROUTINES {
            link(index, FIRST_CALLERS + g, NEXT_CALLERS + usize::from(i), i);
        }
    }
}

// Edge i has this key. There is a place for so many edges: hence the `requires`.
#[tactic(auto, unfolding(crate::specs::Linked::with_key))]
fn link_key(index: &mut [u16], key: u32, i: u16)
    requires { (length index.old ≡ index_size) × (i < max_edges) }
    ensures { index.new ≡ with_key (edge_of key) i index.old }
{
    let e = edge(key);
    link_edge(index, e.routine, e.source, i);
    link_caller(index, e.label, i);
}

// One pass from the last edge to the first: each goes before those that follow it. A program has so many edges at
// most, and the index has no place for more: hence the `requires`.
pub fn index_of(keys: &[u32]) -> Index
    requires { length keys.now ≤ max_edges }
    ensures { Indexed keys.now result.places }
{
    let count = keys.len();
    let mut places = [count as u16; INDEX_SIZE];
    for i in (0..count).rev() {
        link_key(&mut places, keys[i], i as u16);
    }
    Index { places }
}

// Entry i of the part that begins at a place. Past the end there is 0; the sum is made only where it does not wrap.
fn entry(index: &[u16], part: usize, i: usize) -> usize
    ensures { result ≡ get_or index.now (part + i) 0 }
{
    if part <= index.len() && i < index.len() - part {
        usize::from(index[part + i])
    } else {
        0
    }
}

// The first edge from node n of routine f.
pub fn first_edge(index: &[u16], f: u8, n: u8) -> usize
    ensures { result ≡ get_or index.now (node_place f n) 0 }
{
    entry(index, usize::from(f) * MAX_NODES, usize::from(n))
}

// The next edge after edge i from the same node.
pub fn next_edge(index: &[u16], i: usize) -> usize
    ensures { result ≡ get_or index.now (edge_place i) 0 }
{
    entry(index, NEXT_EDGES, i)
}

// The first edge that calls routine g.
pub fn first_caller(index: &[u16], g: u8) -> usize
    ensures { result ≡ get_or index.now (routine_place g) 0 }
{
    entry(index, FIRST_CALLERS, usize::from(g))
}

// The next edge after edge i that calls the same routine.
pub fn next_caller(index: &[u16], i: usize) -> usize
    ensures { result ≡ get_or index.now (caller_place i) 0 }
{
    entry(index, NEXT_CALLERS, i)
}

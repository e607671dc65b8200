// A program by value with another routine in the place of one.
ghost use Rattle.std.specs.Prelude.{◌≡◌, ◌++◌, map, ◌+◌, ◌≤◌, length, take, drop, set};
ghost use Rattle.program.specs.Sizes.{max_edges};
ghost use Rattle.program.specs.Decoded.{nodes_of, edge_keys_of, edge_of, program_of};
ghost use Rattle.exchange.specs.Changing.{others, with_nodes, emptied, exchanged_program};
ghost use Rattle.exchange.specs.Wanted.{Fits};
ghost use Rattle.exchange.specs.Decoded.{exchange_of};

use crate::DecodedExchange;
use edit::apply::with_edges;
use program::edges::{Edges, first_key};
use program::sizes::{MAX_EDGES, MAX_ROUTINES};
use program::{DecodedProgram, Nodes};
use tables::{first_from, in_use, remove_between, with_keys};

// The counts of nodes with another one for routine f; past the routines there is none to change.
pub fn with_nodes(n: Nodes, f: u8, nodes: u8) -> Nodes
    ensures { nodes_of result ≡ set (nodes_of n) f nodes }
{
    let mut list = n.list;
    let at = f as usize;
    if at < MAX_ROUTINES {
        list[at] = nodes;
    }
    Nodes { list, ..n }
}

// The program in which routine f has so many nodes.
pub fn program_with_nodes(p: DecodedProgram, f: u8, count: u8) -> DecodedProgram
    ensures { program_of result ≡ with_nodes (program_of p) f count }
{
    let nodes = with_nodes(p.nodes, f, count);
    DecodedProgram { nodes, ..p }
}

// The edges of every routine but f.
pub fn others_of(t: Edges, f: u8) -> Edges
    ensures { (map edge_of (edge_keys_of result) ≡ others f (map edge_of (edge_keys_of t)))
        × (result.count ≡ length (edge_keys_of result)) }
{
    let mut keys = t.keys;
    let low = first_key(f as u32);
    let high = first_key(f as u32 + 1);
    let count = remove_between(&mut keys, t.count, low, high);
    Edges { count, keys }
}

// The program without any edge of routine f.
pub fn without_routine(p: DecodedProgram, f: u8) -> DecodedProgram
    ensures { program_of result ≡ emptied f (program_of p) }
{
    with_edges(p, others_of(p.edges, f))
}

// The table with new keys before the one at `at`. That is a place among the keys of the table, whose count is exact
// where it was made here, and the caller has judged that there is room for all: hence the two `requires`.
fn joined(t: Edges, at: usize, new: Edges) -> Edges
    requires count_value { (t.count ≡ length (edge_keys_of t)) × (at ≤ t.count) }
    requires len_bound { length (edge_keys_of t) + length (edge_keys_of new) ≤ max_edges }
    ensures { edge_keys_of result ≡ take at (edge_keys_of t) ++ (edge_keys_of new ++ drop at (edge_keys_of t)) }
{
    let old = t.keys;
    let end = t.count;
    let more = new.keys;
    let used = in_use(new.count, MAX_EDGES);
    let mut keys = t.keys;
    let middle = with_keys(&mut keys, at, &more[..used]);
    let count = with_keys(&mut keys, middle, &old[at..end]);
    Edges { count, keys }
}

// The program after an exchange. The new edges are of one routine and ascend, so that all of them go in at one place,
// and an exchange that would make more edges than there is room for is refused (16) before: hence the `requires`.
pub fn exchanged(p: DecodedProgram, x: DecodedExchange) -> DecodedProgram
    requires { Fits (exchange_of x) (program_of p) }
    ensures { program_of result ≡ exchanged_program (exchange_of x) (program_of p) }
{
    let rest = others_of(p.edges, x.routine);
    let at = first_from(&rest.keys[..rest.count], first_key(x.routine as u32));
    let edges = joined(rest, at, x.edges);
    let nodes = with_nodes(p.nodes, x.routine, x.nodes);
    DecodedProgram { nodes, edges, ..p }
}

// The roots that occur: passes over the edges until nothing more is set.
ghost use Rattle.std.specs.Prelude.{◌≡◌, true, min, ltb, length};
ghost use Rattle.automaton.specs.Sizes.{max_states};
ghost use Rattle.program.specs.Program.{is_call};
ghost use Rattle.program.specs.WellFormed.{WellFormed};
ghost use Rattle.program.specs.Decoded.{edge_of, edge_view, program_of};
ghost use Rattle.reach.specs.Ranged.{Sized};
ghost use Rattle.reach.specs.Marks.{Marked};
ghost use Rattle.base.specs.Flags.{count_set};
ghost use Rattle.roots.specs.Roots.{Live};
ghost use Rattle.roots.specs.Parts.{RootFlags, roots_of_main, roots_after_call, roots_when_marked, roots_by_root, roots_by_call};
ghost use Rattle.roots.specs.Parts.{roots_by_edge, roots_by_edges};

use crate::Roots;
use automaton::States;
use automaton::next::{next_after, next_states};
use automaton::sizes::MAX_STATES;
use base::bits::has_bit;
use base::flags::{count_set, is_set, set_flag};
use callgraph::flags::copy_when;
use program::DecodedProgram;
use program::edges::{DecodedEdge, called_by, edge, is_call};
use program::sizes::{MAX_EDGES, Sizes};
use reach::configuration::{number_of, root_place};
use reach::spans::ROOTS_SIZE;
use tables::in_use;

// The roots of the main routine in the initial states.
fn roots_of_main(initial: States, live: &mut [u8])
    ensures { (length initial.list ≡ max_states)
        × (live.new ≡ roots_of_main initial.list (min initial.count max_states) live.old) }
{
    for q in &initial.list[..in_use(initial.count, MAX_STATES)] {
        set_flag(live, root_place(0, *q));
    }
}

// What a configuration in state q adds by the label of a call, where the flag of its own root is set: every state after
// the call's move is a root of the called routine. A call has the same label on an edge and for the automaton; an
// action calls nothing: hence the `requires`.
fn roots_after_call(next: &[u16], from: usize, q: u8, label: u8, live: &mut [u8])
    requires { is_call label ≡ true }
    ensures { live.new ≡ roots_after_call next.now from q label live.old }
{
    let g = called_by(label);
    let set = next_after(next, q, label) as u64;
    for s in 0..MAX_STATES as u8 {
        let to = root_place(g, s);
        copy_when(has_bit(s, set), live, from, to);
    }
}

// Where the configuration at the edge's source with root r and state q is marked, what its call adds.
fn roots_when_marked(
    z: Sizes,
    marks: &[u8],
    next: &[u16],
    e: DecodedEdge,
    r: u8,
    q: u8,
    live: &mut [u8],
)
    requires { is_call e.label ≡ true }
    ensures { live.new
        ≡ roots_when_marked z marks.now next.now (edge_view e) r q live.old }
{
    if is_set(marks, number_of(z, e.routine, e.source, r, q)) {
        let from = root_place(e.routine, r);
        roots_after_call(next, from, q, e.label, live);
    }
}

// Every state with root r.
fn roots_by_root(z: Sizes, marks: &[u8], next: &[u16], e: DecodedEdge, r: u8, live: &mut [u8])
    requires { is_call e.label ≡ true }
    ensures { live.new
        ≡ roots_by_root z marks.now next.now (edge_view e) r live.old }
{
    for q in 0..z.states {
        roots_when_marked(z, marks, next, e, r, q, live);
    }
}

// Every root.
fn roots_by_call(z: Sizes, marks: &[u8], next: &[u16], e: DecodedEdge, live: &mut [u8])
    requires { is_call e.label ≡ true }
    ensures { live.new
        ≡ roots_by_call z marks.now next.now (edge_view e) live.old }
{
    for r in 0..z.states {
        roots_by_root(z, marks, next, e, r, live);
    }
}

fn roots_by_edge(z: Sizes, marks: &[u8], next: &[u16], key: u32, live: &mut [u8])
    ensures { live.new
        ≡ roots_by_edge z marks.now next.now (edge_of key) live.old }
{
    let e = edge(key);
    if is_call(e.label) {
        roots_by_call(z, marks, next, e, live);
    }
}

fn roots_by_edges(z: Sizes, marks: &[u8], next: &[u16], keys: &[u32], live: &mut [u8])
    ensures { live.new ≡ roots_by_edges z marks.now next.now
        keys.now (length keys.now) live.old }
{
    for key in keys {
        roots_by_edge(z, marks, next, *key, live);
    }
}

// One pass over the edges; whether it has set a flag more.
fn roots_further(z: Sizes, marks: &[u8], next: &[u16], keys: &[u32], live: &mut [u8]) -> bool
    ensures { (live.new ≡ roots_by_edges z marks.now next.now
        keys.now (length keys.now) live.old)
        × (result ≡ ltb (count_set live.old) (count_set live.new)) }
{
    let before = count_set(live);
    roots_by_edges(z, marks, next, keys, live);
    let after = count_set(live);
    before < after
}

// The reader accepts only well-formed programs: hence the `requires`.
pub fn live_roots(z: Sizes, p: DecodedProgram, marks: &[u8]) -> Roots
    requires { WellFormed (program_of p) × Sized z (program_of p) }
    ensures { RootFlags (Live (program_of p) (Marked z marks.now)) result.flags }
{
    let edges = p.edges;
    let keys = &edges.keys[..in_use(edges.count, MAX_EDGES)];
    let automaton = p.automaton;
    let initial = automaton.initial;
    let table = next_states(automaton, p.routines);
    let next = table.sets;
    let mut flags = [0u8; ROOTS_SIZE];
    roots_of_main(initial, &mut flags);
    let mut more = true;
    while more {
        more = roots_further(z, marks, &next, keys, &mut flags);
    }
    Roots { flags }
}

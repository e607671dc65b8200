// The pass over a component (paper: working a group anew): its routines are worked by their own edges, from their roots
// and the summaries of the routines that they call outside, in rounds until a round marks nothing.
#![tactic(auto)]

ghost use Rattle.std.specs.Prelude.{◌≡◌, ◌<◌, length};
ghost use Rattle.automaton.specs.NextStates.{Answers};
ghost use Rattle.program.specs.Chosen.{numbers};
ghost use Rattle.program.specs.WellFormed.{WellFormed};
ghost use Rattle.program.specs.Decoded.{program_of};
ghost use Rattle.reach.specs.Configurations.{Usable};
ghost use Rattle.reach.specs.Ranged.{Sized};
ghost use Rattle.reach.specs.Marks.{Shows};
ghost use Rattle.base.specs.Filled.{Filled};
ghost use Rattle.passes.specs.Passes.{Passed};
ghost use Rattle.passes.specs.PassParts.{Passable, root_mark, first_mark, first_marks, Ready, ByMembers, Round, Turn};

use automaton::next::next_states;
use automaton::sizes::NEXT_STATES_SIZE;
use base::flags::{count_set, is_set};
use closure::part::follow_part;
use index::part::first_of;
use program::DecodedProgram;
use program::sizes::{MAX_EDGES, Sizes};
use reach::configuration::{Configuration, number_of, parts_of, root_place};
use reach::spans::routine_span;
use tables::in_use;

// 1 for the entry of a routine in one of its roots, else 0.
fn at_root(roots: &[u8], c: Configuration) -> u8
    ensures { result ≡ root_mark roots.now c.routine c.node c.root c.state }
{
    let found = c.node == 0 && c.root == c.state && is_set(roots, root_place(c.routine, c.state));
    u8::from(found)
}

// The mark of number i at the start: of the component's routines only the entries in their roots are marked.
fn first_mark(z: Sizes, members: &[u8], roots: &[u8], old: u8, i: usize) -> u8
    requires { Usable z × (i < numbers z) }
    ensures { result ≡ first_mark z members.now roots.now old i }
{
    let c = parts_of(z, i);
    if is_set(members, c.routine as usize) {
        at_root(roots, c)
    } else {
        old
    }
}

fn reset(z: Sizes, members: &[u8], roots: &[u8], marks: &mut [u8])
    requires { Usable z × (length marks.old ≡ numbers z) }
    ensures { Filled (first_marks z members.now roots.now marks.old)
        (numbers z) marks.new }
{
    for (i, mark) in marks.iter_mut().enumerate() {
        *mark = first_mark(z, members, roots, *mark, i);
    }
}

// The turn of routine f in a round, if it is one of the component: what follows by its edges, which are a part of the
// table, is marked. Only its own configurations, whose numbers follow one another, can lead on by them.
fn turn(
    z: Sizes,
    p: DecodedProgram,
    members: &[u8],
    f: u8,
    next: &[u16; NEXT_STATES_SIZE],
    marks: &mut [u8],
)
    requires f_lt_routines { f < z.routines }
    requires ready { Ready z (program_of p) marks.old
        × Answers (program_of p).automaton (program_of p).routines next.now }
    ensures { Turn z (program_of p) members.now f marks.old marks.new }
{
    if !is_set(members, f as usize) {
        return;
    }
    let low = number_of(z, f, 0, 0, 0);
    let span = routine_span(z);
    let edges = p.edges;
    let keys = &edges.keys[..in_use(edges.count, MAX_EDGES)];
    let from = first_of(keys, f as u32);
    let to = first_of(keys, f as u32 + 1);
    follow_part(z, &keys[from..to], next, marks, low, low + span);
}

fn round(
    z: Sizes,
    p: DecodedProgram,
    members: &[u8],
    next: &[u16; NEXT_STATES_SIZE],
    marks: &mut [u8],
)
    requires { Ready z (program_of p) marks.old
        × Answers (program_of p).automaton (program_of p).routines next.now }
    ensures { Round z (program_of p) members.now z.routines marks.old marks.new }
{
    for f in 0..z.routines {
        turn(z, p, members, f, next, marks);
    }
}

// Rounds until one marks nothing.
fn rounds(
    z: Sizes,
    p: DecodedProgram,
    members: &[u8],
    next: &[u16; NEXT_STATES_SIZE],
    marks: &mut [u8],
)
    requires { Ready z (program_of p) marks.old
        × Answers (program_of p).automaton (program_of p).routines next.now }
    ensures { Shows z (ByMembers z (program_of p) members.now marks.old) marks.new }
{
    loop {
        let before = count_set(marks);
        round(z, p, members, next, marks);
        let after = count_set(marks);
        if after == before {
            return;
        }
    }
}

// The routines of a component are worked anew from their roots, by their own edges and the summaries of the routines
// that they call outside. The caller has the roots and the marks of the others: hence the `requires`.
pub fn component_pass(z: Sizes, p: DecodedProgram, members: &[u8], roots: &[u8], marks: &mut [u8])
    requires well_formed { WellFormed (program_of p) × Sized z (program_of p) }
    requires passable { Passable z (program_of p) members.now roots.now marks.old }
    ensures { Passed z (program_of p) members.now roots.now marks.old marks.new }
{
    let automaton = p.automaton;
    let table = next_states(automaton, p.routines);
    let next = table.sets;
    reset(z, members, roots, marks);
    rounds(z, p, members, &next, marks);
}

// Whether a component is to be worked anew (paper: reopened): it holds the changed routine, or calls one outside whose
// summaries are others than before.
#![tactic(auto)]

ghost use Rattle.std.specs.Prelude.{◌<◌, ◌⊎◌, length};
ghost use Rattle.program.specs.WellFormed.{WellFormed};
ghost use Rattle.program.specs.Decoded.{edge_of, program_of};
ghost use Rattle.reach.specs.Configurations.{Usable};
ghost use Rattle.reach.specs.Ranged.{Sized};
ghost use Rattle.words.specs.Words.{flags_of};
ghost use Rattle.callgraph.specs.Components.{Member};
ghost use Rattle.reanalysis.specs.Parts.{Differs, DiffersAt, DiffersWith, Says, DifferingEdge, SomeDiffering, CallsDiffering};

use base::flags::is_set;
use program::DecodedProgram;
use program::edges::{called_by, edge, is_call};
use program::sizes::{MAX_EDGES, Sizes};
use reach::configuration::{number_of, summary_of};
use tables::in_use;
use words::has_flag;

// Whether the summary of g with a root and a state is another than before.
fn summary_differs(z: Sizes, before: &[u64], marks: &[u8], g: u8, r: u8, q: u8) -> bool
    ensures { Says result (DiffersAt z (flags_of before.now) marks.now g r q) }
{
    let was = has_flag(before, summary_of(z, g, r, q));
    let is = is_set(marks, number_of(z, g, 1, r, q));
    was != is
}

// Whether one of those with this root is.
fn root_differs(z: Sizes, before: &[u64], marks: &[u8], g: u8, r: u8) -> bool
    ensures { Says result (DiffersWith z (flags_of before.now) marks.now g r) }
{
    (0..z.states).any(|q| summary_differs(z, before, marks, g, r, q))
}

// Whether the summaries of routine g on the marks are others than before.
fn summaries_differ(z: Sizes, before: &[u64], marks: &[u8], g: u8) -> bool
    requires { Usable z × (g < z.routines) }
    ensures { Says result (Differs z (flags_of before.now) marks.now g) }
{
    (0..z.states).any(|r| root_differs(z, before, marks, g, r))
}

// Whether the edge of a key is a member's and calls a routine outside whose summaries are others than before.
fn edge_differs(z: Sizes, members: &[u8], before: &[u64], marks: &[u8], key: u32) -> bool
    requires { Usable z }
    ensures { Says result
        (DifferingEdge z members.now (flags_of before.now) marks.now (edge_of key)) }
{
    let e = edge(key);
    if !is_set(members, e.routine as usize) || !is_call(e.label) {
        return false;
    }
    let g = called_by(e.label);
    g < z.routines && !is_set(members, g as usize) && summaries_differ(z, before, marks, g)
}

// Whether the edge of one of the keys is such.
fn some_differ(z: Sizes, keys: &[u32], members: &[u8], before: &[u64], marks: &[u8]) -> bool
    requires { Usable z }
    ensures { Says result (SomeDiffering z members.now (flags_of before.now) marks.now
        keys.now (length keys.now)) }
{
    keys.iter()
        .any(|key| edge_differs(z, members, before, marks, *key))
}

// Whether a member calls a routine outside whose summaries are others than before. The edges are those of a well-formed
// program: hence the `requires`.
fn calls_differ(z: Sizes, p: DecodedProgram, members: &[u8], before: &[u64], marks: &[u8]) -> bool
    requires { WellFormed (program_of p) × Sized z (program_of p) }
    ensures { Says result
        (CallsDiffering z (program_of p) members.now (flags_of before.now) marks.now) }
{
    let count = in_use(p.edges.count, MAX_EDGES);
    some_differ(z, &p.edges.keys[..count], members, before, marks)
}

// The component holds the changed routine, or calls one outside it whose summaries have changed. The reader accepts
// only well-formed programs: hence the `requires`.
pub fn is_reanalyzed(
    z: Sizes,
    p: DecodedProgram,
    members: &[u8],
    before: &[u64],
    marks: &[u8],
    edited: u8,
) -> bool
    requires { WellFormed (program_of p) × Sized z (program_of p) }
    ensures { Says result (Member members.now edited
        ⊎ CallsDiffering z (program_of p) members.now (flags_of before.now) marks.now) }
{
    is_set(members, edited as usize) || calls_differ(z, p, members, before, marks)
}

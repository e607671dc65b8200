// A program by value with one step more, and without one.
ghost use Rattle.std.specs.Prelude.{◌≡◌, map, ◌<◌, length};
ghost use Rattle.text.specs.Lines.{Bytes};
ghost use Rattle.program.specs.Sizes.{max_edges};
ghost use Rattle.program.specs.Frames.{edge_frame};
ghost use Rattle.program.specs.Decoded.{edge_keys_of, edge_of, program_of};
ghost use Rattle.edit.specs.Edits.{edge_of_step, relabelled};
ghost use Rattle.edit.specs.Editing.{inserted, without, with_edges};

use crate::key::step_key;
use crate::{Label, Step};
use program::DecodedProgram;
use program::edges::Edges;
use tables::{insert_key, remove_key};

// The step with another label.
pub fn relabelled(s: Step, l: Label) -> Step
    ensures { result ≡ relabelled s l }
{
    Step { label: l, ..s }
}

// The program with these edges for its own.
pub fn with_edges(p: DecodedProgram, edges: Edges) -> DecodedProgram
    ensures { program_of result ≡ with_edges (program_of p) (map edge_of (edge_keys_of edges)) }
{
    DecodedProgram { edges, ..p }
}

// The program with one step more. Only an edge of bytes has a key, and an edit that would make more edges than there is
// room for is refused (16) before: hence the two `requires`.
pub fn with_step(p: DecodedProgram, s: Step) -> DecodedProgram
    requires bytes { Bytes (edge_frame (edge_of_step s)) }
    requires p_len_bound { length (program_of p).edges < max_edges }
    ensures { program_of result ≡ with_edges (program_of p) (inserted (edge_of_step s) (program_of p).edges) }
{
    let before = p.edges;
    let mut keys = before.keys;
    let count = insert_key(&mut keys, before.count, step_key(s));
    with_edges(p, Edges { count, keys })
}

// The program without a step. Only an edge of bytes has a key: hence the `requires`.
pub fn without_step(p: DecodedProgram, s: Step) -> DecodedProgram
    requires { Bytes (edge_frame (edge_of_step s)) }
    ensures { program_of result ≡ with_edges (program_of p) (without (edge_of_step s) (program_of p).edges) }
{
    let before = p.edges;
    let mut keys = before.keys;
    let count = remove_key(&mut keys, before.count, step_key(s));
    with_edges(p, Edges { count, keys })
}

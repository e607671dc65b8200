// The keys of an edit's edges. Only an edge of bytes has a key, and each number of an edit line is a byte: hence each
// `requires`.
ghost use Rattle.std.specs.Prelude.{◌≡◌, ◌<◌};
ghost use Rattle.text.specs.Lines.{Bytes};
ghost use Rattle.program.specs.Frames.{edge_frame};
ghost use Rattle.program.specs.Decoded.{edge_of};
ghost use Rattle.edit.specs.Edits.{label_number, edge_of_step, old_step, new_step};

use crate::apply::relabelled;
use crate::{Edit, Label, Step};
use automaton::sizes::FIRST_CALL;
use program::edges::edge_key;

// The number of a label.
fn label_number(l: Label) -> u8
    requires { label_number l < 256 }
    ensures { result ≡ label_number l }
{
    match l {
        Label::Action(a) => a,
        Label::Call(g) => FIRST_CALL + g,
    }
}

// The key of a step's edge.
pub fn step_key(s: Step) -> u32
    requires { Bytes (edge_frame (edge_of_step s)) }
    ensures { edge_of result ≡ edge_of_step s }
{
    let l = s.label;
    edge_key(s.routine, s.source, label_number(l), s.target)
}

// The step that an edit is about.
pub fn old_step(e: Edit) -> Step
    ensures { result ≡ old_step e }
{
    match e {
        Edit::Add(s) | Edit::Drop(s) | Edit::Replace(s, _) => s,
    }
}

// The step that is wanted at the end.
pub fn new_step(e: Edit) -> Step
    ensures { result ≡ new_step e }
{
    match e {
        Edit::Add(s) | Edit::Drop(s) => s,
        Edit::Replace(s, l) => relabelled(s, l),
    }
}

// The refusals 14 to 16 of an edit that was read.
ghost use Rattle.std.specs.Prelude.{◌≡◌, map, IfOk};
ghost use Rattle.text.specs.Lines.{Bytes};
ghost use Rattle.program.specs.Frames.{edge_frame};
ghost use Rattle.program.specs.Decoded.{edge_keys_of, edge_of};
ghost use Rattle.program.specs.Refusals.{number_met};
ghost use Rattle.edit.specs.Edits.{edge_of_step};
ghost use Rattle.edit.specs.Editing.{has_edge, edit_refusal, wanted_by};
ghost use Rattle.edit.specs.Parts.{Keyed, refusal_by};
ghost use Rattle.edit.specs.EditReads.{edit_read_of};

use crate::key::{new_step, old_step, step_key};
use crate::{Edit, Step};
use program::edges::Edges;
use program::refusal::Refusal;
use program::sizes::MAX_EDGES;
use tables::{has_key, in_use};

// By whether the old edge is there, whether the new one is, and whether the table is full.
fn refusal_by(e: Edit, old: bool, new: bool, full: bool) -> Result<(), Refusal>
    ensures { number_met result ≡ refusal_by e old new full }
{
    match e {
        Edit::Drop(_) | Edit::Replace(_, _) if !old => Err(Refusal::NoSuchEdge),
        Edit::Add(_) | Edit::Replace(_, _) if new => Err(Refusal::EdgeExists),
        Edit::Add(_) if full => Err(Refusal::EdgesFull),
        _ => Ok(()),
    }
}

// Whether a step's edge is in the table. Only an edge of bytes has a key: hence the `requires`.
fn has_step(t: Edges, s: Step) -> bool
    requires { Bytes (edge_frame (edge_of_step s)) }
    ensures { result ≡ has_edge (edge_of_step s) (map edge_of (edge_keys_of t)) }
{
    has_key(&t.keys[..in_use(t.count, MAX_EDGES)], step_key(s))
}

// 14: drop or replace, and the step is not there; 15: add or replace, and the wanted step is there; 16: add, and the
// table is full. The edges of an edit that was read are of bytes: hence the `requires`.
fn edit_refusal(e: Edit, t: Edges) -> Result<(), Refusal>
    requires { Keyed e }
    ensures { number_met result ≡ edit_refusal e (map edge_of (edge_keys_of t)) }
{
    let old = has_step(t, old_step(e));
    let new = has_step(t, new_step(e));
    refusal_by(e, old, new, MAX_EDGES <= t.count)
}

// An edit that was read, judged by a table of edges; a refusal stays. What was read has keys: hence the `requires`.
pub fn wanted_by(read: Result<Edit, Refusal>, t: Edges) -> Result<Edit, Refusal>
    requires { IfOk read Keyed }
    ensures { edit_read_of result ≡ wanted_by (edit_read_of read) (map edge_of (edge_keys_of t)) }
{
    let e = read?;
    edit_refusal(e, t)?;
    Ok(e)
}

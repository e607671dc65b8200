// The edit of one line, and its refusals (12 and 13).
ghost use Rattle.std.specs.Prelude.{◌≡◌, [], unwrap_or};
ghost use Rattle.text.specs.Lines.{line_of};
ghost use Rattle.program.specs.Decoded.{program_of};
ghost use Rattle.edit.specs.Edits.{event_of};
ghost use Rattle.edit.specs.EditReads.{edit_read_of};
ghost use Rattle.edit_line.specs.EditLines.{only_line, edit_kind, edit_size, out_of_range, step_in, edit_in, edit_from};
ghost use Rattle.edit_line.specs.Parts.{kind_number, Kinded};

use automaton::labels::label_fits;
use edit::{Edit, Label, Step};
use frames::number;
use program::DecodedProgram;
use program::edges::{called_by, is_call};
use program::refusal::Refusal;
use ranges::{edge_fits, limits_of};
use text::{Line, read_line};

// What an edit line does with its step.
#[derive(Clone, Copy, Debug, PartialEq, Eq)]
enum EditKind {
    Add,
    Drop,
    Replace,
}

// The first number of an edit line says its kind.
impl TryFrom<u8> for EditKind {
    type Error = Refusal;

    ghost try_from_gives = { Kinded };

    fn try_from(first: u8) -> Result<EditKind, Refusal> {
        match first {
            0x2B => Ok(EditKind::Add),
            0x2D => Ok(EditKind::Drop),
            0x3D => Ok(EditKind::Replace),
            _ => Err(Refusal::EditLine),
        }
    }
}

// The line of a buffer that holds exactly one, and none of one that holds anything else.
pub fn only_line(s: &[u8]) -> Option<Line>
    ensures { unwrap_or result (line_of []) ≡ only_line s.now }
{
    let read = read_line(s, 0);
    if read.next == s.len() {
        Some(read.line)
    } else {
        None
    }
}

// How many numbers such a line has, its kind among them.
fn edit_size(kind: EditKind) -> usize
    ensures { result ≡ edit_size (kind_number kind) }
{
    match kind {
        EditKind::Add | EditKind::Drop => 5,
        EditKind::Replace => 6,
    }
}

// 13: the step is out of range or leaves the exit, or the new label is out of range.
fn is_out_of_range(p: DecodedProgram, kind: EditKind, l: Line) -> bool
    ensures { kind_number kind ≡ edit_kind l → result ≡ out_of_range (program_of p) l }
{
    let h = limits_of(p);
    !edge_fits(h, l)
        || kind == EditKind::Replace && !label_fits(h.routines, h.actions, number(l, 5))
}

fn label_of(a: u8) -> Label
    ensures { result ≡ event_of a }
{
    if is_call(a) {
        Label::Call(called_by(a))
    } else {
        Label::Action(a)
    }
}

fn step_in(l: Line) -> Step
    ensures { result ≡ step_in l }
{
    Step {
        routine: number(l, 1),
        source: number(l, 2),
        label: label_of(number(l, 3)),
        target: number(l, 4),
    }
}

fn edit_in(kind: EditKind, l: Line) -> Edit
    ensures { kind_number kind ≡ edit_kind l → result ≡ edit_in l }
{
    let s = step_in(l);
    match kind {
        EditKind::Add => Edit::Add(s),
        EditKind::Drop => Edit::Drop(s),
        EditKind::Replace => Edit::Replace(s, label_of(number(l, 5))),
    }
}

// The edit that a line says for a program, or its refusal. An unknown kind and a wrong count of numbers are refused as
// bad (12) before a number is judged (13).
#[tactic(auto, unfolding(crate::specs::EditLines::edit_from))]
pub fn edit_from(p: DecodedProgram, l: Line) -> Result<Edit, Refusal>
    ensures { edit_read_of result ≡ edit_from (program_of p) l }
{
    let kind = EditKind::try_from(number(l, 0))?;
    if l.count != edit_size(kind) {
        return Err(Refusal::EditLine);
    }
    if is_out_of_range(p, kind, l) {
        return Err(Refusal::EditRange);
    }
    Ok(edit_in(kind, l))
}

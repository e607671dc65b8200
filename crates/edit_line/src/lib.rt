// Edit lines: the edit that a buffer says for a program, or its refusal.
#![tactic(auto)]

mod line;

ghost use Rattle.std.specs.Prelude.{◌≡◌};
ghost use Rattle.program.specs.Decoded.{program_of};
ghost use Rattle.program.specs.WellFormed.{WellFormed};
ghost use Rattle.edit.specs.EditReads.{edit_read_of};
ghost use Rattle.edit_line.specs.EditLines.{read_edit, wanted_edit};

use edit::Edit;
use edit::judge::wanted_by;
use line::{edit_from, only_line};
use program::DecodedProgram;
use program::refusal::Refusal;

// The edit that a buffer says for a program, or its refusal (12 or 13).
#[tactic(auto, unfolding(crate::specs::EditLines::read_edit, crate::specs::EditLines::edit_from))]
pub fn read_edit(p: DecodedProgram, line: &[u8]) -> Result<Edit, Refusal>
    ensures { edit_read_of result ≡ read_edit (program_of p) line.now }
{
    let only = only_line(line).ok_or(Refusal::EditLine)?;
    edit_from(p, only)
}

// The edit that a buffer says for a program, or the first refusal of 12 to 16 that it meets. The reader accepts only
// well-formed programs: hence the `requires`.
#[tactic(auto, unfolding(crate::specs::EditLines::wanted_edit))]
pub fn wanted_edit(p: DecodedProgram, line: &[u8]) -> Result<Edit, Refusal>
    requires { WellFormed (program_of p) }
    ensures { edit_read_of result ≡ wanted_edit (program_of p) line.now }
{
    wanted_by(read_edit(p, line), p.edges)
}

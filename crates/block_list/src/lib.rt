// The list of configurations at which runs of a file's program are cut off.
#![tactic(auto)]

ghost use Rattle.std.specs.Prelude.{◌≡◌};
ghost use Rattle.analysis.specs.Answers.{work_after};
ghost use Rattle.block_list.specs.Answers.{block_answer};
ghost use Rattle.block_list.specs.BlockAnswers.{block_answer_by};

use analysis::check_own;
use blocked::{Blocked, first_blocked};
use checks::passed_program;
use program::chosen::sizes_of;
use program::refusal::RefusedAt;

// The first configuration of a file's program, not below the number, at which runs are cut off, if there is one, and
// the place of the edge that is not allowed there. The marks must be the program's own. The working buffer is all zero
// once the checks of the file and of the lengths are passed.
pub fn next_blocked(
    file: &[u8],
    marks: &[u8],
    work: &mut [u8],
    low: usize,
) -> Result<Option<Blocked>, RefusedAt>
    ensures { (block_answer_by result ≡ block_answer file.now marks.now work.old low)
        × (work.new ≡ work_after file.now marks.now work.old) }
{
    let p = passed_program(file, Some(marks.len()), None, Some(work.len()))?;
    check_own(p, marks, work)?;
    Ok(first_blocked(sizes_of(p), p, marks, low))
}

// Writing a file's program back.
#![tactic(auto)]

pub mod put;

ghost use Rattle.std.specs.Prelude.{◌≡◌};
ghost use Rattle.writer.specs.Answers.{write_answer, output_after};
ghost use Rattle.writer.specs.WriteAnswers.{write_answer_by};

use checks::passed_program;
use program::refusal::RefusedAt;
use put::write_program;

// Writes the program of a file at the start of the output, and says how many bytes it took. A refusal leaves the output
// alone.
pub fn write(file: &[u8], output: &mut [u8]) -> Result<usize, RefusedAt>
    ensures { (write_answer_by result ≡ write_answer file.now output.old)
        × (output.new ≡ output_after file.now output.old) }
{
    let program = passed_program(file, None, Some(output.len()), None)?;
    Ok(write_program(output, program))
}

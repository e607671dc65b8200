// Whether marks are a program's own; those that are not are foreign (refusal 17).
ghost use Rattle.std.specs.Prelude.{◌≡◌, length};
ghost use Rattle.program.specs.Chosen.{sizes_of, numbers};
ghost use Rattle.program.specs.WellFormed.{WellFormed};
ghost use Rattle.program.specs.Decoded.{program_of};
ghost use Rattle.reach.specs.Configurations.{none_set};
ghost use Rattle.reach.specs.Marks.{fresh_marks};
ghost use Rattle.analysis.specs.Answers.{same};

use base::flags::clear;
use program::DecodedProgram;
use program::chosen::sizes_of;
use reach::spans::enough_iterations;
use worklist::run::analyze_program;

// The marks are compared with those of a full analysis, which is made in the working buffer and has no limit. The
// reader accepts only well-formed programs, and the caller has measured the working buffer (refusal 11): hence the
// `requires`.
pub fn is_own(p: DecodedProgram, marks: &[u8], work: &mut [u8]) -> bool
    requires { WellFormed (program_of p) × (length work.old ≡ numbers (sizes_of (program_of p))) }
    ensures { (result ≡ same marks.now (fresh_marks (program_of p))) × (work.new ≡ none_set (sizes_of (program_of p))) }
{
    let z = sizes_of(p);
    let _stop = analyze_program(z, p, work, enough_iterations(z));
    let own = marks == work;
    clear(work);
    own
}

// The full analysis of a file's program, and the list of its violations.
#![tactic(auto)]

pub mod own;

ghost use Rattle.std.specs.Prelude.{◌≡◌, length};
ghost use Rattle.program.specs.Chosen.{sizes_of, numbers};
ghost use Rattle.program.specs.WellFormed.{WellFormed};
ghost use Rattle.program.specs.Decoded.{program_of};
ghost use Rattle.reach.specs.Configurations.{none_set};
ghost use Rattle.reach.specs.Marks.{fresh_marks};
ghost use Rattle.analysis.specs.AnalyzeAnswers.{analyze_answer_by};
ghost use Rattle.analysis.specs.NextAnswers.{next_answer_by};
ghost use Rattle.analysis.specs.Owned.{verdict_met};
ghost use Rattle.analysis.specs.Answers.{limited, analyze_by, analyze_answer, on_success, marks_after};
ghost use Rattle.analysis.specs.Answers.{work_after, owned, next_answer};
ghost use Rattle.worklist.specs.Parts.{Analyzed};

use automaton::flags::rejecting_flags;
use base::flags::{clear, count_set};
use checks::passed_program;
use own::is_own;
use program::DecodedProgram;
use program::chosen::sizes_of;
use program::refusal::{Refusal, RefusedAt};
use program::sizes::Sizes;
use violations::{count_violations, first_violation};
use worklist::run::{Stop, analyze_program};

// What a full analysis counts.
#[derive(Clone, Copy, Debug, PartialEq, Eq)]
pub struct MarkCounts {
    pub configurations: usize,
    pub violations: usize,
    pub iterations: usize,
}

// The marks that were worked out are handed over and counted; an analysis that has not ended is given up, and the lent
// marks stay. It is asked of what `analyze_program` leaves: hence the `requires`.
fn hand_over(
    z: Sizes,
    p: DecodedProgram,
    worked: &[u8],
    marks: &mut [u8],
    limit: usize,
    stop: Stop,
) -> Result<MarkCounts, RefusedAt>
    requires { (z ≡ sizes_of (program_of p)) × WellFormed (program_of p)
        × Analyzed z (program_of p) limit worked.now stop.iterations stop.ended
        × (length marks.old ≡ numbers (sizes_of (program_of p))) }
    ensures { (analyze_answer_by result ≡ analyze_by (limited (program_of p) limit) (program_of p))
        × (marks.new ≡ on_success (limited (program_of p) limit) (fresh_marks (program_of p))
        marks.old) }
{
    if !stop.ended {
        return Err(Refusal::GaveUp.into());
    }
    let _copied = base::bytes::copy(worked, marks);
    let rejecting = rejecting_flags(p.automaton);
    Ok(MarkCounts {
        configurations: count_set(marks),
        violations: count_violations(z, marks, &rejecting.flags),
        iterations: stop.iterations,
    })
}

// The marks are worked out in the working buffer, so that giving up leaves the lent ones alone. It is all zero then.
fn analyze_counts(
    p: DecodedProgram,
    marks: &mut [u8],
    work: &mut [u8],
    limit: usize,
) -> Result<MarkCounts, RefusedAt>
    requires well_formed { WellFormed (program_of p) }
    requires marks_len { (length marks.old ≡ numbers (sizes_of (program_of p)))
        × (length work.old ≡ numbers (sizes_of (program_of p))) }
    ensures { (analyze_answer_by result ≡ analyze_by (limited (program_of p) limit) (program_of p))
        × (marks.new ≡ on_success (limited (program_of p) limit) (fresh_marks (program_of p)) marks.old)
        × (work.new ≡ none_set (sizes_of (program_of p))) }
{
    let z = sizes_of(p);
    let stop = analyze_program(z, p, work, limit);
    let answer = hand_over(z, p, work, marks, limit, stop);
    clear(work);
    answer
}

// The fresh marks of a file's program and their counts, unless more iterations are needed than the limit says. A
// refusal leaves the marks alone, and the working buffer too, unless the analysis is given up: then it is all zero, as
// on success.
pub fn analyze(
    file: &[u8],
    marks: &mut [u8],
    work: &mut [u8],
    limit: usize,
) -> Result<MarkCounts, RefusedAt>
    ensures { (analyze_answer_by result ≡ analyze_answer file.now marks.old work.old limit)
        × (marks.new ≡ marks_after file.now marks.old work.old limit)
        × (work.new ≡ work_after file.now marks.old work.old) }
{
    let p = passed_program(file, Some(marks.len()), None, Some(work.len()))?;
    analyze_counts(p, marks, work, limit)
}

// Marks that differ from the program's own are refused. The working buffer is all zero afterwards. The reader accepts
// only well-formed programs, and the caller has measured the buffers: hence the `requires`.
pub fn check_own(p: DecodedProgram, marks: &[u8], work: &mut [u8]) -> Result<(), Refusal>
    requires well_formed { WellFormed (program_of p) }
    requires marks_len { (length marks.now ≡ numbers (sizes_of (program_of p)))
        × (length work.old ≡ numbers (sizes_of (program_of p))) }
    ensures { (verdict_met result ≡ owned (program_of p) marks.now) × (work.new ≡ none_set (sizes_of (program_of p))) }
{
    if is_own(p, marks, work) {
        Ok(())
    } else {
        Err(Refusal::ForeignMarks)
    }
}

// The first violation of a file's program that is not below the number. The marks must be the program's own. The
// working buffer is all zero once the checks of the file and of the lengths are passed.
pub fn next_violation(
    file: &[u8],
    marks: &[u8],
    work: &mut [u8],
    low: usize,
) -> Result<Option<usize>, RefusedAt>
    ensures { (next_answer_by result ≡ next_answer file.now marks.now work.old low)
        × (work.new ≡ work_after file.now marks.now work.old) }
{
    let p = passed_program(file, Some(marks.len()), None, Some(work.len()))?;
    check_own(p, marks, work)?;
    let rejecting = rejecting_flags(p.automaton);
    Ok(first_violation(sizes_of(p), marks, &rejecting.flags, low))
}

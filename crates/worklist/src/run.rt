// The full analysis of a decoded program.
ghost use Rattle.std.specs.Prelude.{◌≡◌, ◌↔◌, true, ◌≤◌, length, take};
ghost use Rattle.std.proofs.Math.Option.{none};
ghost use Rattle.program.specs.Sizes.{marks_most};
ghost use Rattle.program.specs.Chosen.{numbers};
ghost use Rattle.automaton.specs.Decoded.{states_of};
ghost use Rattle.program.specs.WellFormed.{WellFormed};
ghost use Rattle.program.specs.Decoded.{program_of};
ghost use Rattle.reach.specs.Configurations.{none_set};
ghost use Rattle.reach.specs.Ranged.{Sized};
ghost use Rattle.reach.specs.Worklist.{lowest, opened};
ghost use Rattle.words.specs.Words.{flags_of};
ghost use Rattle.marking.specs.Parts.{pending_words, Becomes};
ghost use Rattle.worklist.specs.Parts.{Analyzed};

use crate::pending::follow_program;
use automaton::States;
use automaton::sizes::MAX_STATES;
use base::flags::clear;
use marking::{KNOWN_WORDS, PENDING_WORDS, mark};
use program::DecodedProgram;
use program::sizes::Sizes;
use reach::configuration::entry_of;
use tables::in_use;
use words::first_set;

// The main routine's entry in each initial state.
fn open_initial(z: Sizes, initial: States, marks: &mut [u8], pending: &mut [u64])
    ensures { Becomes (opened z (states_of initial))
        marks.old pending.old marks.new pending.new }
{
    let count = in_use(initial.count, MAX_STATES);
    let mut low: usize = 0;
    for q in &initial.list[..count] {
        low = mark(marks, pending, entry_of(z, 0, *q), low);
    }
}

// Nothing is marked but the main routine's entries, and these are pending.
fn begin(z: Sizes, initial: States, marks: &mut [u8], pending: &mut [u64])
    requires { length marks.old ≡ numbers z }
    ensures { Becomes (opened z (states_of initial)) (none_set z) pending.old
        marks.new pending.new }
{
    clear(marks);
    open_initial(z, initial, marks, pending);
}

// Where an analysis stopped: how many iterations it made, and whether it had ended, with nothing pending.
#[derive(Clone, Copy)]
pub struct Stop {
    pub iterations: usize,
    pub ended: bool,
}

// Is none of the first numbers pending? There are flags for so many: hence the `requires`.
fn is_done(pending: &[u64], size: usize) -> bool
    requires { (length pending.now ≡ pending_words) × (size ≤ marks_most) }
    ensures { (result ≡ true) ↔ (lowest (take size (flags_of pending.now)) 0 ≡ none) }
{
    size <= first_set(pending, 0)
}

// The full analysis of a decoded program, from any contents of the marks. It takes no more configurations than the
// limit says, and stops where more were needed. The reader accepts only well-formed programs, and the caller has
// measured the marks (refusals 9 and 11): hence the `requires`.
pub fn analyze_program(z: Sizes, p: DecodedProgram, marks: &mut [u8], limit: usize) -> Stop
    requires { WellFormed (program_of p) × Sized z (program_of p) × (length marks.old ≡ numbers z) }
    ensures { Analyzed z (program_of p) limit marks.new result.iterations result.ended }
{
    let rule = p.automaton;
    let initial = rule.initial;
    let mut pending = [0u64; PENDING_WORDS];
    let mut known = [0u64; KNOWN_WORDS];
    begin(z, initial, marks, &mut pending);
    let iterations = follow_program(z, p, marks, &mut pending, &mut known, limit);
    let ended = is_done(&pending, marks.len());
    Stop { iterations, ended }
}

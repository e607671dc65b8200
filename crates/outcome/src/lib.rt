// The outcome of reading a file: refused by a number at a line, or accepted with its program. Rows are judged as a table
// (19, 20), which tells its first faulty pair, and the sizes (23) where all lines are good.
#![tactic(auto)]

ghost use Rattle.std.specs.Prelude.{◌≡◌, map, ◌≤◌};
ghost use Rattle.automaton.specs.Sizes.{max_states, max_actions};
ghost use Rattle.automaton.specs.Decoded.{transition_keys_of, transition_of};
ghost use Rattle.rows.specs.Decoded.{rows_of};
ghost use Rattle.program.specs.Reading.{with_transitions, sizes_decide, finished};
ghost use Rattle.program.specs.Decoded.{program_of};
ghost use Rattle.outcome.specs.Outcome.{outcome_of};

use automaton::DecodedAutomaton;
use automaton::transitions::Transitions;
use program::DecodedProgram;
use program::chosen::sizes_of;
use program::refusal::{Refusal, RefusedAt};
use program::sizes::{MARKS_MOST, length_of};
use rows::{Rows, row_count, table_of};

// The program with the transitions of its table.
fn with_transitions(p: DecodedProgram, transitions: Transitions) -> DecodedProgram
    ensures { program_of result ≡ with_transitions (program_of p) (map transition_of (transition_keys_of transitions)) }
{
    let automaton = DecodedAutomaton {
        transitions,
        ..p.automaton
    };
    DecodedProgram { automaton, ..p }
}

// The program, unless the product of its sizes is too large.
fn accept_sized(p: DecodedProgram) -> Result<DecodedProgram, RefusedAt>
    ensures { outcome_of result ≡ sizes_decide (program_of p) }
{
    if MARKS_MOST < length_of(sizes_of(p)) {
        return Err(Refusal::TooLarge.into());
    }
    Ok(p)
}

// The end of a file whose lines are all good: rows are judged as a table, and become transitions; the sizes are judged
// last. The header was judged long before: hence the `requires`.
pub fn finish(p: DecodedProgram, rows: Rows) -> Result<DecodedProgram, RefusedAt>
    requires { (p.automaton.states ≤ max_states) × (p.automaton.actions ≤ max_actions) }
    ensures { outcome_of result ≡ finished (rows_of rows) (program_of p) }
{
    if row_count(rows) == 0 {
        return accept_sized(p);
    }
    let transitions = table_of(rows, p.automaton.states, p.automaton.actions)?;
    accept_sized(with_transitions(p, transitions))
}

// Flags, a byte each; those of the initial and of the rejecting states are made once, so that a pass reads one byte for
// each question.
ghost use Rattle.automaton.specs.Decoded.{states_of, automaton_of};
ghost use Rattle.automaton.specs.Flags.{Lists, Starts, Rejects};

use crate::sizes::MAX_STATES;
use crate::{DecodedAutomaton, States};
use base::flags::set_flag;
use tables::in_use;

// A flag for each state that there may be.
#[derive(Clone, Copy)]
pub struct StateFlags {
    pub flags: [u8; MAX_STATES],
}

fn flags_of(states: States) -> StateFlags
    ensures { Lists (states_of states) result.flags }
{
    let list = states.list;
    let count = in_use(states.count, MAX_STATES);
    let mut flags = [0u8; MAX_STATES];
    for state in &list[..count] {
        set_flag(&mut flags, usize::from(*state));
    }
    StateFlags { flags }
}

pub fn initial_flags(r: DecodedAutomaton) -> StateFlags
    ensures { Starts (automaton_of r) result.flags }
{
    let states = r.initial;
    flags_of(states)
}

pub fn rejecting_flags(r: DecodedAutomaton) -> StateFlags
    ensures { Rejects (automaton_of r) result.flags }
{
    let states = r.rejecting;
    flags_of(states)
}

// The automaton by value, and the questions that are asked of it.
#![tactic(auto)]

pub mod flags;
pub mod labels;
pub mod next;
pub mod sizes;
pub mod transitions;

ghost use Rattle.std.specs.Prelude.{◌≡◌, []};
ghost use Rattle.automaton.specs.Decoded.{states_of};

use sizes::MAX_STATES;
use transitions::Transitions;

// What the automaton sees of a run.
#[derive(Clone, Copy)]
pub enum Event {
    Action(u8),
    Call(u8),
    Return(u8),
}

// A list of states, ascending: the first `count` are in use.
#[derive(Clone, Copy)]
pub struct States {
    pub count: usize,
    pub list: [u8; MAX_STATES],
}

#[derive(Clone, Copy)]
pub struct DecodedAutomaton {
    pub states: u8,
    pub actions: u8,
    pub transitions: Transitions,
    pub initial: States,
    pub rejecting: States,
}

pub fn no_states() -> States
    ensures { states_of result ≡ [] }
{
    let list = [0u8; MAX_STATES];
    States { count: 0, list }
}

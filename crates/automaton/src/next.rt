// One look at the automaton: a state and a label, be it an action's, a call's or a return's, give all next states as
// bits. The table of these sets is made once, and everything that follows a move asks it.
ghost use Rattle.std.specs.Prelude.{◌≡◌, map, ◌<◌, ◌*◌, get_or, set};
ghost use Rattle.base.specs.Bits.{with_bit};
ghost use Rattle.automaton.specs.Sizes.{max_states, max_labels};
ghost use Rattle.automaton.specs.Automaton.{Automaton};
ghost use Rattle.automaton.specs.Decoded.{transition_keys_of, transition_of, automaton_of};
ghost use Rattle.automaton.specs.NextStates.{set_at, Answers, Ranged};
ghost use Rattle.automaton.specs.NextStates.{Sets, Listed, Heard, with_transition, stayed_at};

use crate::DecodedAutomaton;
use crate::labels::{Range, is_in_range};
use crate::sizes::{FIRST_CALL, MAX_LABELS, MAX_STATES, MAX_TRANSITIONS, NEXT_STATES_SIZE};
use crate::transitions::{Transitions, transition};
use base::flags::{is_set, set_flag};
use tables::in_use;

// A set for each label and state.
#[derive(Clone, Copy)]
pub struct NextStates {
    pub sets: [u16; NEXT_STATES_SIZE],
}

// A flag for each label that some transition has.
#[derive(Clone, Copy)]
pub struct HeardLabels {
    pub flags: [u8; MAX_LABELS],
}

// The set with state s, too. A set has bits for so many states: hence the `requires`.
fn with_state(set: u16, s: u8) -> u16
    requires { s < max_states }
    ensures { result ≡ with_bit s set }
{
    set | (1 << s)
}

// The set at a place with state s, too.
fn add_state(sets: &mut [u16], at: usize, s: u8)
    requires { s < max_states }
    ensures { sets.new
        ≡ set sets.old at (with_bit s (get_or sets.old at 0)) }
{
    if at < sets.len() {
        sets[at] = with_state(sets[at], s);
    }
}

#[tactic(auto, unfolding(crate::specs::NextStates::with_transition))]
fn add_transition(sets: &mut [u16], key: u32)
    ensures { sets.new ≡ with_transition (transition_of key) sets.old }
{
    let t = transition(key);
    if t.before < MAX_STATES as u32 && t.after < MAX_STATES as u32 {
        let at = t.label as usize * MAX_STATES + t.before as usize;
        add_state(sets, at, t.after as u8);
    }
}

fn listed_moves(transitions: Transitions) -> NextStates
    ensures { Listed (map transition_of (transition_keys_of transitions)) result.sets }
{
    let keys = transitions.keys;
    let count = in_use(transitions.count, MAX_TRANSITIONS);
    let mut sets = [0u16; NEXT_STATES_SIZE];
    for key in &keys[..count] {
        add_transition(&mut sets, *key);
    }
    NextStates { sets }
}

fn label_of(key: u32) -> usize
    ensures { result ≡ (transition_of key).label }
{
    let t = transition(key);
    t.label as usize
}

// A label is heard by the whole automaton: whatever the states of the transitions that have it.
fn heard_labels(transitions: Transitions) -> HeardLabels
    ensures { Heard (map transition_of (transition_keys_of transitions)) result.flags }
{
    let keys = transitions.keys;
    let count = in_use(transitions.count, MAX_TRANSITIONS);
    let mut flags = [0u8; MAX_LABELS];
    for key in &keys[..count] {
        set_flag(&mut flags, label_of(*key));
    }
    HeardLabels { flags }
}

// The labels and the states in turn: where label l is not heard, and both are in range, l leaves q alone. Past the
// table there is no label and no state: hence the `requires`.
fn stayed_at(heard: &[u8], n: Range, i: usize, old: u16) -> u16
    requires { i < max_labels * max_states }
    ensures { result ≡ stayed_at n.routines n.states n.actions heard.now i old }
{
    let l = i / MAX_STATES;
    let q = (i % MAX_STATES) as u8;
    if !is_set(heard, l) && is_in_range(n, q, l as u8) {
        with_state(old, q)
    } else {
        old
    }
}

// The calls and returns that are not heard leave every state alone.
fn stay_unheard(heard: &[u8], n: Range, sets: &mut [u16])
    requires { Sets sets.old }
    ensures { (r : Automaton) → r.states ≡ n.states → r.actions ≡ n.actions → Ranged r n.routines
        → Heard r.transitions heard.now → Listed r.transitions sets.old
        → Answers r n.routines sets.new }
{
    for i in usize::from(FIRST_CALL) * MAX_STATES..NEXT_STATES_SIZE {
        sets[i] = stayed_at(heard, n, i, sets[i]);
    }
}

// The table of an automaton in a program with so many routines. What the reader accepts is in range, and a transition
// outside it would set a bit where there is to be none: hence the `requires`.
pub fn next_states(r: DecodedAutomaton, routines: u8) -> NextStates
    requires { Ranged (automaton_of r) routines }
    ensures { Answers (automaton_of r) routines result.sets }
{
    let transitions = r.transitions;
    let labels = heard_labels(transitions);
    let heard = labels.flags;
    let moves = listed_moves(transitions);
    let mut sets = moves.sets;
    let range = Range {
        routines,
        states: r.states,
        actions: r.actions,
    };
    stay_unheard(&heard, range, &mut sets);
    NextStates { sets }
}

// The one look: all states in which the automaton can be after label l in state q. Outside the table there is none.
pub fn next_after(sets: &[u16], q: u8, l: u8) -> u16
    ensures { result ≡ set_at sets.now q l }
{
    let at = usize::from(l) * MAX_STATES + usize::from(q);
    if usize::from(q) < MAX_STATES && at < sets.len() {
        sets[at]
    } else {
        0
    }
}

// The range of a program: its labels and states.
ghost use Rattle.std.specs.Prelude.{◌≡◌};
ghost use Rattle.automaton.specs.Automaton.{label_fits, event_fits};
ghost use Rattle.automaton.specs.NextStates.{in_range};

use crate::sizes::{FIRST_CALL, FIRST_RETURN};

// How many routines, states and actions a program has.
#[derive(Clone, Copy)]
pub struct Range {
    pub routines: u8,
    pub states: u8,
    pub actions: u8,
}

// Whether it is the label of an edge.
pub fn label_fits(routines: u8, actions: u8, a: u8) -> bool
    ensures { result ≡ label_fits routines actions a }
{
    a < actions || (FIRST_CALL <= a && u16::from(a) < u16::from(FIRST_CALL) + u16::from(routines))
}

// Whether it is the label of a transition, which may also be that of a return.
pub fn event_fits(routines: u8, actions: u8, l: u8) -> bool
    ensures { result ≡ event_fits routines actions l }
{
    label_fits(routines, actions, l)
        || (FIRST_RETURN <= l && u16::from(l) < u16::from(FIRST_RETURN) + u16::from(routines))
}

pub fn is_in_range(n: Range, q: u8, l: u8) -> bool
    ensures { result ≡ in_range n.routines n.states n.actions q l }
{
    q < n.states && event_fits(n.routines, n.actions, l)
}

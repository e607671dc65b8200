// How many states, actions and transitions an automaton has at most, and the numbers of labels.
pub const MAX_STATES: usize = 16;

pub const MAX_ACTIONS: usize = 32;

pub const MAX_TRANSITIONS: usize = 512;

// The label of a call of routine 0, and that of a return from it: below are the actions, and the calls.
pub const FIRST_CALL: u8 = 0x40;

pub const FIRST_RETURN: u8 = 0x60;

// Every label is below this.
pub const MAX_LABELS: usize = 0x80;

// A set of next states for each label and state.
pub const NEXT_STATES_SIZE: usize = MAX_LABELS * MAX_STATES;

// The table of transitions, and the keys that they are kept as: nothing else makes a transition's key or takes one
// apart.
ghost use Rattle.std.specs.Prelude.{◌≡◌, []};
ghost use Rattle.automaton.specs.Decoded.{transition_keys_of, transition_of};

use crate::sizes::MAX_TRANSITIONS;

// The keys of transitions, ascending: the first `count` are in use.
#[derive(Clone, Copy)]
pub struct Transitions {
    pub count: usize,
    pub keys: [u32; MAX_TRANSITIONS],
}

// A transition as its key says it.
#[derive(Clone, Copy)]
pub struct DecodedTransition {
    pub before: u32,
    pub label: u32,
    pub after: u32,
}

pub fn no_transitions() -> Transitions
    ensures { transition_keys_of result ≡ [] }
{
    let keys = [0u32; MAX_TRANSITIONS];
    Transitions { count: 0, keys }
}

// The key of a transition.
pub fn transition_key(before: u8, label: u8, after: u8) -> u32
    ensures { transition_of result ≡ record { before = before; label = label; after = after } }
{
    (u32::from(before) * 256 + u32::from(label)) * 256 + u32::from(after)
}

// The parts of a transition's key.
pub fn transition(key: u32) -> DecodedTransition
    ensures { (result.before ≡ (transition_of key).before) × (result.label ≡ (transition_of key).label)
        × (result.after ≡ (transition_of key).after) }
{
    DecodedTransition {
        before: key / 0x10000,
        label: key / 0x100 % 256,
        after: key % 256,
    }
}

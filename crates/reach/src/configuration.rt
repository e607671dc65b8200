// The number of a configuration, its parts, and the places of what is kept of it: nothing else computes them. Every
// number is one in the sizes that a program has chosen.
ghost use Rattle.std.specs.Prelude.{◌≡◌, ◌<◌, ◌/◌, ◌%◌};
ghost use Rattle.automaton.specs.Sizes.{max_states};
ghost use Rattle.program.specs.Chosen.{numbers};
ghost use Rattle.reach.specs.Sizes.{roots_size, summaries};
ghost use Rattle.reach.specs.Configurations.{number, routine_of, state_of, byte_numbers, exit_at, root_place, entry_at};
ghost use Rattle.reach.specs.Configurations.{PartsOf, Usable};
ghost use Rattle.reach.specs.Worklist.{summary};

use automaton::sizes::MAX_STATES;
use program::sizes::{Sizes, with_digit};

// A configuration, its parts one by one.
#[derive(Clone, Copy)]
pub struct Configuration {
    pub routine: u8,
    pub node: u8,
    pub root: u8,
    pub state: u8,
}

pub fn wide(x: u8) -> usize
    ensures { (result ≡ x) × (result < 256) }
{
    x as usize
}

// The parts are any bytes: whoever asks for a configuration that no program has gets a number that nothing is known
// of.
pub fn number_of(z: Sizes, f: u8, n: u8, r: u8, q: u8) -> usize
    ensures { (result ≡ number z f n r q) × (result < byte_numbers) }
{
    let a = with_digit(wide(f), z.nodes, n);
    let b = with_digit(a, z.states, r);
    with_digit(b, z.states, q)
}

// The entry of a routine with a root: the state is the root.
pub fn entry_of(z: Sizes, f: u8, r: u8) -> usize
    ensures { (result ≡ number z f 0 r r) × (result < byte_numbers) }
{
    number_of(z, f, 0, r, r)
}

// The last digit in a base that is a byte, and the digits before it. A base is not 0: hence each `requires`.
fn low_digit(i: usize, base: u8) -> u8
    requires { 0 < base }
    ensures { result ≡ i % base }
{
    (i % wide(base)) as u8
}

fn high_digits(i: usize, base: u8) -> usize
    requires { 0 < base }
    ensures { result ≡ i / base }
{
    i / wide(base)
}

pub fn narrow(x: usize) -> u8
    requires { x < 256 }
    ensures { result ≡ x }
{
    x as u8
}

// The parts of a number of the marks: others have no parts of their own, hence the `requires`.
pub fn parts_of(z: Sizes, i: usize) -> Configuration
    requires { Usable z × (i < numbers z) }
    ensures { PartsOf z i result.routine result.node result.root result.state }
{
    let a = high_digits(i, z.states);
    let b = high_digits(a, z.states);
    let routine = narrow(high_digits(b, z.nodes));
    let node = low_digit(b, z.nodes);
    let root = low_digit(a, z.states);
    let state = low_digit(i, z.states);
    Configuration {
        routine,
        node,
        root,
        state,
    }
}

// The routine of a number, where nothing else of it is asked.
pub fn routine_of(z: Sizes, i: usize) -> usize
    requires { Usable z × (i < numbers z) }
    ensures { (result ≡ routine_of z i) × (result < z.routines) }
{
    let c = parts_of(z, i);
    wide(c.routine)
}

// The state of a number, where nothing else of it is asked.
pub fn state_of(z: Sizes, i: usize) -> usize
    requires { Usable z × (i < numbers z) }
    ensures { (result ≡ state_of z i) × (result < z.states) }
{
    let c = parts_of(z, i);
    wide(c.state)
}

// The place of a summary.
pub fn summary_of(z: Sizes, f: u8, r: u8, q: u8) -> usize
    ensures { (result ≡ summary z f r q) × (result < byte_numbers) }
{
    let a = with_digit(wide(f), z.states, r);
    with_digit(a, z.states, q)
}

// The number of the exit whose summary has this place. A place past the summaries is none: hence the `requires`.
pub fn exit_at(z: Sizes, place: usize) -> usize
    requires { Usable z × (place < summaries z) }
    ensures { (result ≡ exit_at z place) × (result < numbers z) }
{
    let a = high_digits(place, z.states);
    let f = narrow(high_digits(a, z.states));
    let r = low_digit(a, z.states);
    let q = low_digit(place, z.states);
    number_of(z, f, 1, r, q)
}

// The place of a root's flag.
pub fn root_place(f: u8, r: u8) -> usize
    ensures { result ≡ root_place f r }
{
    wide(f) * MAX_STATES + wide(r)
}

// The number of the entry whose root has its flag at this place. A place past the roots is none: hence the `requires`.
pub fn entry_at(z: Sizes, place: usize) -> usize
    requires { place < roots_size }
    ensures { (result ≡ entry_at z place) × (result < byte_numbers) }
{
    entry_of(z, (place / MAX_STATES) as u8, (place % MAX_STATES) as u8)
}

// The parts of many numbers in the same sizes. Three divisions for each would wait for one another: here a quotient is a
// product with a reciprocal, none waits for another, and the reciprocals are made once.
ghost use Rattle.std.specs.Prelude.{◌≡◌, ◌<◌, ◌≤◌, ◌*◌, ◌^◌, ◌/◌, ◌%◌};
ghost use Rattle.program.specs.Chosen.{numbers, Admitted};
ghost use Rattle.reach.specs.Configurations.{PartsOf, Usable};
ghost use Rattle.reach.specs.SplitParts.{Reciprocal, Splits};

use crate::configuration::{Configuration, narrow};
use crate::spans::{node_span, routine_span};
use program::sizes::{Sizes, with_digit};

// Those of how many numbers follow one another with one root, at one node and in one routine.
#[derive(Clone, Copy)]
pub struct Reciprocals {
    pub root: usize,
    pub node: usize,
    pub routine: usize,
}

// There is none of 0, and none as short of a large number: hence the `requires`.
fn reciprocal_of(span: usize) -> usize
    requires { (0 < span) × (span ≤ 2 ^ 15) }
    ensures { Reciprocal span result }
{
    4294967296 / span + 1
}

// Admitted sizes are small enough, and usable ones are not 0: hence the `requires`.
pub fn reciprocals_of(z: Sizes) -> Reciprocals
    requires { Usable z × Admitted z }
    ensures { Splits z result.root result.node result.routine }
{
    let root = reciprocal_of(z.states as usize);
    let node = reciprocal_of(node_span(z));
    let routine = reciprocal_of(routine_span(z));
    Reciprocals {
        root,
        node,
        routine,
    }
}

// The product fits a number: hence the `requires`.
fn quotient(i: usize, reciprocal: usize) -> usize
    requires { (i < 2 ^ 16) × (reciprocal ≤ 2 ^ 33) }
    ensures { result ≡ i * reciprocal / 2 ^ 32 }
{
    (i * reciprocal) >> 32
}

// The last digit of a number, once the digits before it are known: hence the `requires`.
fn rest(i: usize, high: usize, base: u8) -> u8
    requires { (0 < base) × (i < 2 ^ 16) × (high ≡ i / base) }
    ensures { result ≡ i % base }
{
    narrow(i - with_digit(high, base, 0))
}

// The same parts as `parts_of` gives. The reciprocals are those of the sizes, and divide only numbers as small as these:
// hence the `requires`.
pub fn parts_by(z: Sizes, by: Reciprocals, i: usize) -> Configuration
    requires { Usable z × (i < numbers z) × (i < 2 ^ 16) × Splits z by.root by.node by.routine }
    ensures { PartsOf z i result.routine result.node result.root result.state }
{
    let a = quotient(i, by.root);
    let b = quotient(i, by.node);
    let f = quotient(i, by.routine);
    let routine = narrow(f);
    let node = rest(b, f, z.nodes);
    let root = rest(a, b, z.states);
    let state = rest(i, a, z.states);
    Configuration {
        routine,
        node,
        root,
        state,
    }
}

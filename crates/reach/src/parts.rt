// The parts of a number, by comparing and subtracting: found from the beginning, or counted up from those of a number
// before.
ghost use Rattle.std.specs.Prelude.{◌≡◌, ◌+◌, ◌<◌};
ghost use Rattle.program.specs.Chosen.{numbers};
ghost use Rattle.reach.specs.Configurations.{number, Usable, InRange, PartsOf};
ghost use Rattle.reach.specs.Parts.{TakenOff, SpansOf, root_start, Beside, Counted};

use crate::configuration::Configuration;
use crate::spans::{Spans, spans_of};
use program::sizes::{Sizes, length_of};

// How often a span was taken off a number, and what is left of it.
#[derive(Clone, Copy)]
struct Taken {
    times: usize,
    left: usize,
}

// Nothing is ever below a span of 0: hence the `requires`.
fn take_off(i: usize, span: usize) -> Taken
    requires { 0 < span }
    ensures { TakenOff i span result.times result.left }
{
    let mut times: usize = 0;
    let mut left = i;
    while span <= left {
        left = left - span;
        times = times + 1;
    }
    Taken { times, left }
}

// Number 0 has these parts.
pub fn first_parts() -> Configuration
    ensures { (result.routine ≡ 0) × (result.node ≡ 0) × (result.root ≡ 0) × (result.state ≡ 0) }
{
    Configuration {
        routine: 0,
        node: 0,
        root: 0,
        state: 0,
    }
}

// The parts of the number that lies so much above the first state of a root. Its spans are added to these parts as
// digits are, from the last to the first, and what is a whole span again is carried. Only a number of the marks has
// parts: hence the `requires`.
pub fn parts_above(z: Sizes, by: Spans, c: Configuration, more: usize) -> Configuration
    requires { Usable z × SpansOf z by × (root_start z c + more < numbers z) }
    ensures { PartsOf z (root_start z c + more) result.routine result.node result.root result.state }
{
    let routines = take_off(more, by.routine);
    let nodes = take_off(routines.left, by.node);
    let roots = take_off(nodes.left, z.states as usize);
    let root = take_off(c.root as usize + roots.times, z.states as usize);
    let node = take_off(c.node as usize + nodes.times + root.times, z.nodes as usize);
    Configuration {
        routine: (c.routine as usize + routines.times + node.times) as u8,
        node: node.left as u8,
        root: root.left as u8,
        state: roots.left as u8,
    }
}

// The parts of a number of the marks: others have no parts of their own, hence the `requires`.
pub fn parts_of(z: Sizes, i: usize) -> Configuration
    requires { Usable z × (i < numbers z) }
    ensures { PartsOf z i result.routine result.node result.root result.state }
{
    parts_above(z, spans_of(z), first_parts(), i)
}

// The parts with which a pass over the numbers from i on begins.
pub fn parts_at(z: Sizes, i: usize) -> Configuration
    requires { Usable z }
    ensures { Beside z i result }
{
    if i < length_of(z) {
        return parts_of(z, i);
    }
    first_parts()
}

// The parts of a number, where those of another are known: one that is not below it is few spans away in most cases.
pub fn parts_from(z: Sizes, by: Spans, c: Configuration, at: usize, i: usize) -> Configuration
    requires { Usable z × SpansOf z by × Counted z at c × (i < numbers z) }
    ensures { PartsOf z i result.routine result.node result.root result.state }
{
    let start = at - c.state as usize;
    if i < start {
        return parts_above(z, by, first_parts(), i);
    }
    parts_above(z, by, c, i - start)
}

// The parts of the next number: a pass over the marks splits none. Parts that are counted on past their sizes would be
// none: hence the `requires`.
pub fn next_parts(z: Sizes, c: Configuration) -> Configuration
    requires { InRange z c.routine c.node c.root c.state }
    ensures { Counted z (number z c.routine c.node c.root c.state + 1) result }
{
    if c.state + 1 < z.states {
        return Configuration {
            routine: c.routine,
            node: c.node,
            root: c.root,
            state: c.state + 1,
        };
    }
    if c.root + 1 < z.states {
        return Configuration {
            routine: c.routine,
            node: c.node,
            root: c.root + 1,
            state: 0,
        };
    }
    if c.node + 1 < z.nodes {
        return Configuration {
            routine: c.routine,
            node: c.node + 1,
            root: 0,
            state: 0,
        };
    }
    Configuration {
        routine: c.routine + 1,
        node: 0,
        root: 0,
        state: 0,
    }
}

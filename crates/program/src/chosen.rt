// The sizes that a decoded program chooses.
ghost use Rattle.std.specs.Prelude.{◌≡◌};
ghost use Rattle.program.specs.Chosen.{largest, sizes_of};
ghost use Rattle.program.specs.Decoded.{nodes_of, program_of};

use crate::sizes::{MAX_ROUTINES, Sizes};
use crate::{DecodedProgram, Nodes};
use tables::in_use;

// The largest count of nodes.
fn largest_of(nodes: Nodes) -> u8
    ensures { result ≡ largest (nodes_of nodes) }
{
    let list = nodes.list;
    let count = in_use(nodes.count, MAX_ROUTINES);
    list[..count].iter().copied().max().unwrap_or(0)
}

pub fn sizes_of(p: DecodedProgram) -> Sizes
    ensures { result ≡ sizes_of (program_of p) }
{
    let list = p.nodes;
    let rule = p.automaton;
    let nodes = largest_of(list);
    Sizes {
        routines: p.routines,
        nodes,
        states: rule.states,
    }
}

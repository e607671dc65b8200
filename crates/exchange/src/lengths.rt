// The lengths of the buffers of an exchange that depend on its text.
ghost use Rattle.std.specs.Prelude.{◌≡◌};
ghost use Rattle.program.specs.Decoded.{program_of};
ghost use Rattle.program.specs.Checks.{first_met};
ghost use Rattle.program.specs.Refusals.{number_met};
ghost use Rattle.exchange.specs.Decoded.{exchange_of};
ghost use Rattle.exchange.specs.Lengths.{sizes_after, lengths_of, length_rows};

use crate::DecodedExchange;
use crate::apply::program_with_nodes;
use program::DecodedProgram;
use program::chosen::sizes_of;
use program::refusal::Refusal;
use program::sizes::{Sizes, length_of};

// How long the second buffer and the working buffer have to be.
#[derive(Clone, Copy)]
pub struct Lengths {
    pub second: usize,
    pub work: usize,
}

// The sizes of the program after an exchange.
pub fn sizes_after(p: DecodedProgram, x: DecodedExchange) -> Sizes
    ensures { result ≡ sizes_after (exchange_of x) (program_of p) }
{
    sizes_of(program_with_nodes(p, x.routine, x.nodes))
}

pub fn lengths_of(z: Sizes, y: Sizes) -> Lengths
    ensures { result ≡ lengths_of z y }
{
    let second = length_of(y);
    Lengths {
        second,
        work: length_of(z).max(second),
    }
}

// The first of the two lengths that is not the wanted one is refused.
#[tactic(auto, unfolding(program::specs::Checks::first_met))]
pub fn check_lengths(wanted: Lengths, second: usize, work: usize) -> Result<(), Refusal>
    ensures { number_met result ≡ first_met (length_rows wanted second work) }
{
    if second != wanted.second {
        return Err(Refusal::MarksLength);
    }
    if work != wanted.work {
        return Err(Refusal::WorkLength);
    }
    Ok(())
}

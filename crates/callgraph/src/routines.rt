// A set of routines: a flag for each, joined with another, and as a number.
ghost use Rattle.std.specs.Prelude.{◌≡◌, ◌≤◌, cond, eqb};
ghost use Rattle.program.specs.Sizes.{max_routines};
ghost use Rattle.base.specs.Filled.{Filled};
ghost use Rattle.callgraph.specs.Components.{Member, Bits};
ghost use Rattle.callgraph.specs.Parts.{joined_flag};

use program::sizes::MAX_ROUTINES;

// flags[f]: routine f is one of the set.
#[derive(Clone, Copy)]
pub struct Routines {
    pub flags: [u8; MAX_ROUTINES],
}

// The routines of either set.
pub fn join(a: Routines, b: Routines) -> Routines
    ensures { Filled (joined_flag a.flags b.flags) max_routines result.flags }
{
    let mut flags = a.flags;
    for f in 0..MAX_ROUTINES {
        if b.flags[f] != 0 {
            flags[f] = 1;
        }
    }
    Routines { flags }
}

// Bit f for routine f.
pub fn bits_of(flags: &[u8; MAX_ROUTINES]) -> u32
    ensures { Bits (Member flags.now) result }
{
    let mut n: u32 = 0;
    for i in (0..MAX_ROUTINES).rev() {
        n = n * 2 + u32::from(flags[i] != 0);
    }
    n
}

// The routines that have gained a configuration, by two lists of marks: those that have a mark in the new one that is
// not in the old.
#![tactic(auto)]

ghost use Rattle.std.specs.Prelude.{◌≡◌, length};
ghost use Rattle.program.specs.Chosen.{numbers, Admitted};
ghost use Rattle.reach.specs.Configurations.{Usable};
ghost use Rattle.gained.specs.Parts.{FlagsOf, MarkedMore};

use callgraph::routines::Routines;
use program::sizes::{MAX_ROUTINES, Sizes};
use reach::configuration::routine_of;

// The routines that have a mark more. The callers have measured both marks: hence the `requires`.
pub fn gained(z: Sizes, old: &[u8], new: &[u8]) -> Routines
    requires { Usable z × Admitted z × (length old.now ≡ numbers z) × (length new.now ≡ numbers z) }
    ensures { FlagsOf (MarkedMore z old.now new.now) result.flags }
{
    let mut flags = [0u8; MAX_ROUTINES];
    for i in 0..new.len() {
        if old[i] == 0 && new[i] != 0 {
            let f = routine_of(z, i);
            flags[f] = 1;
        }
    }
    Routines { flags }
}

// The marks of a set of configurations, in other sizes: an exchange may change the largest count of nodes, and with it
// every number.
#![tactic(auto)]

ghost use Rattle.std.specs.Prelude.{◌≡◌, ◌<◌, length};
ghost use Rattle.base.specs.Filled.{Filled};
ghost use Rattle.program.specs.Chosen.{numbers};
ghost use Rattle.reach.specs.Configurations.{Usable};
ghost use Rattle.resize.specs.Resized.{Alike, renumbered};

use program::sizes::Sizes;
use reach::configuration::{number_of, parts_of};

// The byte of the configuration that has number i in sizes y, 0 where sizes z do not have its node. The marks have
// their length and i is a number: hence each `requires`.
fn resized_byte(z: Sizes, y: Sizes, old: &[u8], i: usize) -> u8
    requires usable { Usable y × Alike z y }
    requires len { (length old.now ≡ numbers z) × (i < numbers y) }
    ensures { result ≡ renumbered z y old.now i }
{
    let c = parts_of(y, i);
    if c.node < z.nodes {
        let at = number_of(z, c.routine, c.node, c.root, c.state);
        old[at]
    } else {
        0
    }
}

// Each mark is written at its number in sizes y; what `new` held is gone.
pub fn resize(z: Sizes, y: Sizes, old: &[u8], new: &mut [u8])
    requires usable { Usable y × Alike z y }
    requires len { (length old.now ≡ numbers z) × (length new.old ≡ numbers y) }
    ensures { Filled (renumbered z y old.now) (numbers y) new.new }
{
    for (i, mark) in new.iter_mut().enumerate() {
        *mark = resized_byte(z, y, old, i);
    }
}

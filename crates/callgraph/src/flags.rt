// Flags, a byte each, of which one is set where another is.
ghost use Rattle.std.specs.Prelude.{◌≡◌};
ghost use Rattle.callgraph.specs.Parts.{copy_when};

use base::flags::{is_set, set_flag};

// Where a test is passed and one flag is set, the other is set too.
#[tactic(auto, unfolding(crate::specs::Parts::copy_when))]
pub fn copy_when(yes: bool, flags: &mut [u8], from: usize, to: usize)
    ensures { flags.new ≡ copy_when yes from to flags.old }
{
    if yes && is_set(flags, from) {
        set_flag(flags, to);
    }
}

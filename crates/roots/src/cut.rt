// The marks are cut to the roots that occur.
ghost use Rattle.std.specs.Prelude.{◌≡◌, length};
ghost use Rattle.program.specs.Chosen.{numbers};
ghost use Rattle.reach.specs.Configurations.{Usable};
ghost use Rattle.reach.specs.Ranged.{Sized};
ghost use Rattle.program.specs.WellFormed.{WellFormed};
ghost use Rattle.program.specs.Decoded.{program_of};
ghost use Rattle.reach.specs.Marks.{Shows};
ghost use Rattle.base.specs.Filled.{Filled};
ghost use Rattle.roots.specs.Roots.{LiveMarked};
ghost use Rattle.roots.specs.Parts.{kept_byte_of};

use crate::live::live_roots;
use base::flags::is_set;
use program::DecodedProgram;
use program::sizes::Sizes;
use reach::configuration::{parts_of, root_place};

// Every mark becomes 1 if it is set and its root occurs, else 0.
fn cut(z: Sizes, live: &[u8], marks: &mut [u8])
    requires { Usable z × (length marks.old ≡ numbers z) }
    ensures { Filled (kept_byte_of z live.now marks.old) (numbers z) marks.new }
{
    for (i, mark) in marks.iter_mut().enumerate() {
        let c = parts_of(z, i);
        let occurs = is_set(live, root_place(c.routine, c.root));
        *mark = u8::from(*mark != 0 && occurs);
    }
}

// What has a root that does not occur goes. The reader accepts only well-formed programs, and the caller has measured
// the marks (refusal 9): hence the `requires`.
pub fn cut_to_live(z: Sizes, p: DecodedProgram, marks: &mut [u8])
    requires { WellFormed (program_of p) × Sized z (program_of p) × (length marks.old ≡ numbers z) }
    ensures { Shows z (LiveMarked z (program_of p) marks.old) marks.new }
{
    let roots = live_roots(z, p, marks);
    let live = roots.flags;
    cut(z, &live, marks);
}

// The roots that are on marks, the roots that occur, and the cut to these.
#![tactic(auto)]

pub mod cut;
mod live;

ghost use Rattle.std.specs.Prelude.{◌≡◌, length};
ghost use Rattle.program.specs.Chosen.{numbers, Admitted};
ghost use Rattle.reach.specs.Configurations.{Usable};
ghost use Rattle.reach.specs.Marks.{Marked};
ghost use Rattle.roots.specs.Parts.{RootFlags, entry_byte};

use automaton::sizes::MAX_STATES;
use program::sizes::Sizes;
use reach::configuration::entry_of;
use reach::spans::ROOTS_SIZE;

// A flag for each root of each routine.
#[derive(Clone, Copy)]
pub struct Roots {
    pub flags: [u8; ROOTS_SIZE],
}

// The byte of an entry: whether it has this root. Outside the sizes there is none. The marks have been measured: hence
// the `requires`.
fn entry_byte(z: Sizes, marks: &[u8], f: u8, r: u8) -> u8
    requires { Usable z × (length marks.now ≡ numbers z) }
    ensures { result ≡ entry_byte z marks.now f r }
{
    if f < z.routines && r < z.states {
        marks[entry_of(z, f, r)]
    } else {
        0
    }
}

// The marked entries (f, 0, r, r). The caller has measured the marks (refusal 9): hence the `requires`.
pub fn old_roots(z: Sizes, marks: &[u8]) -> Roots
    requires { Usable z × Admitted z × (length marks.now ≡ numbers z) }
    ensures { RootFlags (λ f. λ x. Marked z marks.now f 0 x x) result.flags }
{
    let mut flags = [0u8; ROOTS_SIZE];
    for (i, flag) in flags.iter_mut().enumerate() {
        *flag = entry_byte(z, marks, (i / MAX_STATES) as u8, (i % MAX_STATES) as u8);
    }
    Roots { flags }
}

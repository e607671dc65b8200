// The violations that marks have: the count of them, and the search for one.
#![tactic(auto)]

ghost use Rattle.std.specs.Prelude.{◌≡◌, ◌<◌, length, get_or};
ghost use Rattle.automaton.specs.Sizes.{max_states};
ghost use Rattle.program.specs.Chosen.{numbers, Admitted};
ghost use Rattle.automaton.specs.Flags.{Rejects};
ghost use Rattle.program.specs.Program.{Program};
ghost use Rattle.reach.specs.Configurations.{Usable};
ghost use Rattle.reach.specs.Marks.{violates, violations_from, first_from};
ghost use Rattle.violations.specs.Views.{option_view};

use program::sizes::Sizes;
use reach::configuration::state_of;

// Whether the configuration of number i is marked and its present state is rejecting.
fn is_violation(z: Sizes, marks: &[u8], rejecting: &[u8], i: usize) -> bool
    requires { Usable z × Admitted z × (i < numbers z) × (length marks.now ≡ numbers z)
        × (length rejecting.now ≡ max_states) }
    ensures { (p : Program) → Rejects p.automaton rejecting.now
        → result ≡ violates z p (get_or marks.now i 0) i }
{
    marks[i] != 0 && rejecting[state_of(z, i)] != 0
}

// The caller has measured the marks (refusal 9), and the flags have the size of `StateFlags`: hence the `requires`.
pub fn count_violations(z: Sizes, marks: &[u8], rejecting: &[u8]) -> usize
    requires { Usable z × Admitted z × (length marks.now ≡ numbers z) × (length rejecting.now ≡ max_states) }
    ensures { (p : Program) → Rejects p.automaton rejecting.now
        → result ≡ length (violations_from z p marks.now 0) }
{
    (0..marks.len())
        .filter(|i| is_violation(z, marks, rejecting, *i))
        .count()
}

// The first violation that is not below `from`, if there is one. The caller has measured the marks (refusal 9), and the
// flags have the size of `StateFlags`: hence the `requires`.
pub fn first_violation(z: Sizes, marks: &[u8], rejecting: &[u8], from: usize) -> Option<usize>
    requires { Usable z × Admitted z × (length marks.now ≡ numbers z) × (length rejecting.now ≡ max_states) }
    ensures { (p : Program) → Rejects p.automaton rejecting.now
        → first_from from (violations_from z p marks.now 0) ≡ option_view result }
{
    (from..marks.len()).find(|i| is_violation(z, marks, rejecting, *i))
}

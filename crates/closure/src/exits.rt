// The summaries on marks are those of the marked exits.
ghost use Rattle.std.specs.Prelude.{◌≡◌, length};
ghost use Rattle.program.specs.Chosen.{numbers, Admitted};
ghost use Rattle.reach.specs.Configurations.{Usable};
ghost use Rattle.closure.specs.Parts.{Learnt};

use marking::KNOWN_WORDS;
use program::sizes::Sizes;
use reach::configuration::exit_at;
use reach::spans::summary_count;
use words::set_at;

// A bit for each summary: whether its exit is marked.
#[derive(Clone, Copy)]
pub struct Summaries {
    pub words: [u64; KNOWN_WORDS],
}

// The caller has measured the marks (refusal 9): hence the `requires`.
pub fn summaries_of(z: Sizes, marks: &[u8]) -> Summaries
    requires { Usable z × Admitted z × (length marks.now ≡ numbers z) }
    ensures { Learnt z marks.now result.words }
{
    let mut words = [0u64; KNOWN_WORDS];
    for i in 0..summary_count(z) {
        if marks[exit_at(z, i)] != 0 {
            set_at(&mut words, i);
        }
    }
    Summaries { words }
}

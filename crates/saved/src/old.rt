// The programs of before a program chose its sizes, and their marks.
ghost use Rattle.std.specs.Prelude.{◌≡◌, false, length};
ghost use Rattle.program.specs.Chosen.{numbers};
ghost use Rattle.program.specs.WellFormed.{WellFormed};
ghost use Rattle.program.specs.Decoded.{program_of};
ghost use Rattle.saved.specs.Saved.{old_sizes, too_large, old_marks};

use automaton::sizes::MAX_TRANSITIONS;
use program::DecodedProgram;
use program::chosen::sizes_of;
use program::sizes::Sizes;
use reach::spans::enough_iterations;
use tables::in_use;
use worklist::run::analyze_program;

const OLD_ROUTINES: u8 = 16;

const OLD_NODES: u8 = 16;

const OLD_STATES: u8 = 8;

const OLD_TRANSITIONS: usize = 256;

// A flag for each configuration.
pub const OLD_MARKS_SIZE: usize = 16384;

pub fn old_sizes() -> Sizes
    ensures { result ≡ old_sizes }
{
    Sizes {
        routines: OLD_ROUTINES,
        nodes: OLD_NODES,
        states: OLD_STATES,
    }
}

fn transition_count(p: DecodedProgram) -> usize
    ensures { result ≡ length (program_of p).automaton.transitions }
{
    in_use(p.automaton.transitions.count, MAX_TRANSITIONS)
}

// Has a program more nodes in some routine, more states or more transitions than any had then?
pub fn is_too_large(p: DecodedProgram) -> bool
    ensures { result ≡ too_large (program_of p) }
{
    let z = sizes_of(p);
    OLD_NODES < z.nodes || OLD_STATES < z.states || OLD_TRANSITIONS < transition_count(p)
}

// The old marks of a program, whatever was there before. It is asked of accepted programs of that time, and the marks are
// the caller's own: hence the `requires`.
pub fn analyze_old(p: DecodedProgram, marks: &mut [u8])
    requires { WellFormed (program_of p) × (too_large (program_of p) ≡ false)
        × (length marks.old ≡ numbers old_sizes) }
    ensures { marks.new ≡ old_marks (program_of p) }
{
    let z = old_sizes();
    let _stop = analyze_program(z, p, marks, enough_iterations(z));
}

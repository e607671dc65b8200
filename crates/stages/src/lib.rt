// The marks after an exchange, in stages, each in one numbering: the old edges of the routine are dropped on a copy of
// the program's own marks, in the sizes before; what is left is written into the second buffer in the sizes after;
// there all new edges are added. The old marks are lent for reading. The exchanges that come here were not refused (12,
// 13, 16, 21, 23), the marks are the program's own (17), and the buffers have their lengths (9 and 11): hence each
// `requires`.
#![tactic(auto)]

ghost use Rattle.std.specs.Prelude.{◌≡◌, ◌≤◌, length, replicate};
ghost use Rattle.base.specs.Filled.{Filled};
ghost use Rattle.program.specs.Chosen.{sizes_of, numbers};
ghost use Rattle.program.specs.WellFormed.{WellFormed};
ghost use Rattle.program.specs.Decoded.{program_of};
ghost use Rattle.exchange.specs.Changes.{whole};
ghost use Rattle.exchange.specs.Changing.{emptied, exchanged_program};
ghost use Rattle.exchange.specs.Decoded.{exchange_of};
ghost use Rattle.reach.specs.Marks.{Shows, fresh_at};
ghost use Rattle.prune.specs.Pruning.{Kept};
ghost use Rattle.callgraph.specs.Components.{Reanalyzed};
ghost use Rattle.resize.specs.Resized.{renumbered};
ghost use Rattle.gained.specs.Parts.{FlagsOf};
ghost use Rattle.inside_out.specs.Reanalyzed.{ReanalyzedBy, Told};
ghost use Rattle.stages.specs.Parts.{Exchanges, Buffers, Exchanged};

use additions::{Reworked, add_routine_inside_out};
use base::flags::clear;
use callgraph::routines::{Routines, join};
use exchange::DecodedExchange;
use forward::{add_routine, drop_routine};
use inside_out::drop_routine_inside_out;
use program::DecodedProgram;
use program::sizes::{MARKS_MOST, MAX_ROUTINES, Sizes};
use resize::resize;

// The edges of routine f are dropped forward, on a copy of the marks: what the program without them keeps of whatever
// marks are lent, and no fresh working.
fn drop_copied(z: Sizes, p: DecodedProgram, f: u8, marks: &[u8], kept: &mut [u8], work: &mut [u8])
    requires well_formed { WellFormed (program_of p) × (z ≡ sizes_of (program_of p)) }
    requires marks_len { (length marks.now ≡ numbers z) × (length kept.old ≡ numbers z)
        × (numbers z ≤ length work.old) }
    ensures { Shows z (Kept z (emptied f (program_of p)) marks.now) kept.new }
{
    let size = kept.len();
    kept.copy_from_slice(marks);
    drop_routine(z, p, f, kept, &mut work[..size]);
}

// The same inside-out, where the marks are the program's own.
fn drop_copied_inside_out(
    z: Sizes,
    p: DecodedProgram,
    f: u8,
    marks: &[u8],
    own: &mut [u8],
    work: &mut [u8],
) -> Routines
    requires well_formed { WellFormed (program_of p) × (z ≡ sizes_of (program_of p)) }
    requires marks_value { (marks.now ≡ fresh_at z (program_of p)) × (length own.old ≡ numbers z)
        × (numbers z ≤ length work.old) }
    ensures { (own.new ≡ fresh_at z (emptied f (program_of p)))
        × FlagsOf (Reanalyzed (program_of p) (emptied f (program_of p)) f) result.flags }
{
    let size = own.len();
    own.copy_from_slice(marks);
    drop_routine_inside_out(z, p, f, own, &mut work[..size])
}

// A working buffer may be longer than the part that was lent of it.
pub fn clear_whole(work: &mut [u8])
    ensures { work.new ≡ replicate (length work.new) 0 }
{
    clear(work);
}

// The drop is handed the marks as they are lent, and room for its copy; what it leaves there is written in the sizes
// after, and the new edges are added there. What the drop and the add do to the buffers is for the caller to say.
fn in_stages<
    D,
    A,
    F: FnOnce(Sizes, DecodedProgram, u8, &[u8], &mut [u8], &mut [u8]) -> D,
    G: FnOnce(Sizes, DecodedProgram, DecodedExchange, &mut [u8], &mut [u8]) -> A,
>(
    drop: F,
    add: G,
    z: Sizes,
    y: Sizes,
    p: DecodedProgram,
    x: DecodedExchange,
    marks: &[u8],
    second: &mut [u8],
    work: &mut [u8],
) -> (D, A)
    requires exchanges { Exchanges z y (exchange_of x) (program_of p) }
    requires buffers { (length marks.now ≡ numbers z) × (length second.old ≡ numbers y)
        × (numbers z ≤ length work.old) × (numbers y ≤ length work.old) }
    requires droppable { (l : _) (m : _) (w : _) → l.now ≡ marks.now → length m.now ≡ numbers z
        → numbers z ≤ length w.now → F.pre drop z p x.routine l m w }
    requires addable { (d : _) (l : _) (m : _) (w : _) (m' : _) (w' : _) (s : _) (v : _)
        → F.post drop z p x.routine l m w d m' w' → l.now ≡ marks.now → length m.now ≡ numbers z
        → Filled (renumbered z y m'.now) (numbers y) s.now → length v.now ≡ numbers y → G.pre add y p x s v }
    ensures staged { (l : _) × (m : _) × (w : _) × (m' : _) × (w' : _) × (s : _) × (v : _) × (s' : _) × (v' : _)
        × (l.now ≡ marks.now) × (length m.now ≡ numbers z) × F.post drop z p x.routine l m w result.0 m' w'
        × Filled (renumbered z y m'.now) (numbers y) s.now × (length v.now ≡ numbers y)
        × G.post add y p x s v result.1 s' v' × (s'.now ≡ second.new) }
    ensures clear { work.new ≡ replicate (length work.new) 0 }
{
    let size = marks.len();
    let mut room = [0u8; MARKS_MOST];
    let own = &mut room[..size];
    let dropped = drop(z, p, x.routine, marks, own, work);
    resize(z, y, own, second);
    let size_after = second.len();
    let added = add(y, p, x, second, &mut work[..size_after]);
    clear_whole(work);
    (dropped, added)
}

// The marks of the exchanged program are made in the second buffer, in the way that is asked for: inside-out, which
// tells the reanalyzed routines, or forward, which tells none.
pub fn mend_exchange(
    inward: bool,
    z: Sizes,
    y: Sizes,
    p: DecodedProgram,
    x: DecodedExchange,
    marks: &[u8],
    second: &mut [u8],
    work: &mut [u8],
) -> Reworked
    requires exchanges { Exchanges z y (exchange_of x) (program_of p) }
    requires buffers { Buffers z y (program_of p) marks.now second.old work.old }
    ensures { Exchanged y (exchanged_program (exchange_of x) (program_of p)) (program_of result.program)
        second.new work.new
        × FlagsOf (Told inward (ReanalyzedBy (whole (exchange_of x)) (program_of p))) result.routines.flags }
{
    if inward {
        let (dropped, added) = in_stages(
            drop_copied_inside_out,
            add_routine_inside_out,
            z,
            y,
            p,
            x,
            marks,
            second,
            work,
        );
        let routines = join(dropped, added.routines);
        let program = added.program;
        Reworked { program, routines }
    } else {
        let ((), program) = in_stages(drop_copied, add_routine, z, y, p, x, marks, second, work);
        let routines = Routines {
            flags: [0u8; MAX_ROUTINES],
        };
        Reworked { program, routines }
    }
}

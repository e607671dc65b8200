// The inside-out repair after a drop: component by component, callees first, each worked anew only if it has to be.
ghost use Rattle.std.specs.Prelude.{◌≡◌, ◌↔◌, ℕ, ◌<◌, ◌+◌, length, get_or};
ghost use Rattle.program.specs.Sizes.{max_routines};
ghost use Rattle.program.specs.Chosen.{numbers};
ghost use Rattle.program.specs.Program.{Program};
ghost use Rattle.program.specs.Decoded.{program_of};
ghost use Rattle.reach.specs.Configurations.{none_set};
ghost use Rattle.reach.specs.Marks.{fresh_at};
ghost use Rattle.words.specs.Words.{flags_of};
ghost use Rattle.callgraph.specs.Components.{Reanalyzed, Member};
ghost use Rattle.callgraph.specs.Parts.{rank_of};
ghost use Rattle.components.specs.TurnParts.{DropOf, turn_of, first_turn, end_turn, Comes, Advances};

use base::flags::clear;
use callgraph::graph::{call_graph, component, rank};
use callgraph::routines::{Routines, join};
use closure::exits::summaries_of;
use passes::component_pass;
use program::DecodedProgram;
use program::sizes::{MAX_ROUTINES, Sizes};
use reanalysis::is_reanalyzed;
use roots::cut::cut_to_live;
use roots::old_roots;

// Ranks are from 1 to the count of routines: the turns from this one up to that one.
const FIRST_TURN: usize = MAX_ROUTINES;

const END_TURN: usize = MAX_ROUTINES * MAX_ROUTINES + MAX_ROUTINES;

// The routines that are done, and those of them that were reanalyzed.
#[derive(Clone, Copy)]
pub struct Progress {
    pub done: Routines,
    pub reanalyzed: Routines,
}

// The turn of routine f: its component is worked anew if it is to be, and then it is done.
fn work_component(
    z: Sizes,
    p: DecodedProgram,
    leads: &[u8],
    roots: &[u8],
    before: &[u64],
    edited: u8,
    f: u8,
    progress: Progress,
    marks: &mut [u8],
) -> Progress
    requires f_lt_max_routines { (f < max_routines) × (get_or progress.done.flags f 0 ≡ 0) }
    requires comes { Comes z (program_of p) edited leads.now roots.now (flags_of before.now)
        (turn_of (rank_of leads.now) f) marks.old progress }
    ensures { Advances z (program_of p) edited leads.now roots.now
        (flags_of before.now) (turn_of (rank_of leads.now) f) marks.old progress
        (turn_of (rank_of leads.now) f + 1) marks.new result }
{
    let c = component(leads, f);
    let members = c.flags;
    let done = join(progress.done, c);
    if is_reanalyzed(z, p, &members, before, marks, edited) {
        component_pass(z, p, &members, roots, marks);
        let reanalyzed = join(progress.reanalyzed, c);
        Progress { done, reanalyzed }
    } else {
        let reanalyzed = progress.reanalyzed;
        Progress { done, reanalyzed }
    }
}

// Turn i: that of the routine that it is the turn of by its rank, if it is not done yet.
fn visit(
    z: Sizes,
    p: DecodedProgram,
    leads: &[u8],
    roots: &[u8],
    before: &[u64],
    edited: u8,
    i: usize,
    progress: Progress,
    marks: &mut [u8],
) -> Progress
    requires { Comes z (program_of p) edited leads.now roots.now (flags_of before.now) i marks.old progress }
    ensures { Advances z (program_of p) edited leads.now roots.now
        (flags_of before.now) i marks.old progress (i + 1) marks.new result }
{
    let f = i % MAX_ROUTINES;
    if progress.done.flags[f] != 0 {
        return progress;
    }
    if rank(leads, f as u8) == i / MAX_ROUTINES {
        work_component(z, p, leads, roots, before, edited, f as u8, progress, marks)
    } else {
        progress
    }
}

fn visit_all(
    z: Sizes,
    p: DecodedProgram,
    leads: &[u8],
    roots: &[u8],
    before: &[u64],
    edited: u8,
    start: Progress,
    marks: &mut [u8],
) -> Progress
    requires { Comes z (program_of p) edited leads.now roots.now (flags_of before.now) first_turn
        marks.old start }
    ensures { Advances z (program_of p) edited leads.now roots.now
        (flags_of before.now) first_turn marks.old start end_turn marks.new result }
{
    let mut progress = start;
    for i in FIRST_TURN..END_TURN {
        progress = visit(z, p, leads, roots, before, edited, i, progress, marks);
    }
    progress
}

// The fresh marks of the program before a drop become those of the program after it, and the routines that were
// reanalyzed are told. The caller has the marks of the program before, and has measured the buffers (refusal 9): hence
// the `requires`.
pub fn drop_inside_out(
    z: Sizes,
    p: DecodedProgram,
    edited: u8,
    marks: &mut [u8],
    work: &mut [u8],
) -> Routines
    requires work_len { length work.old ≡ numbers z }
    requires drop_of { (old : Program) × DropOf z old (program_of p) edited × (marks.old ≡ fresh_at z old) }
    ensures { (old : Program) → DropOf z old (program_of p) edited → marks.old ≡ fresh_at z old
        → (marks.new ≡ fresh_at z (program_of p)) × (work.new ≡ none_set z)
        × ((f : ℕ) → f < max_routines → Member result.flags f ↔ Reanalyzed old (program_of p) edited f) }
{
    let graph = call_graph(p);
    let leads = graph.leads;
    let entries = old_roots(z, marks);
    let roots = entries.flags;
    let exits = summaries_of(z, marks);
    let before = exits.words;
    let none = Routines {
        flags: [0u8; MAX_ROUTINES],
    };
    let start = Progress {
        done: none,
        reanalyzed: none,
    };
    let end = visit_all(z, p, &leads, &roots, &before, edited, start, marks);
    cut_to_live(z, p, marks);
    clear(work);
    end.reanalyzed
}

// Pruning (paper: the keeping): of marks those stay that have support back to a start through marked configurations. The
// marks and what is kept of them have a byte for each configuration: hence each `requires` about their lengths.
#![tactic(auto)]

ghost use Rattle.std.specs.Prelude.{◌≡◌, cond, ◌&&◌, map, ◌+◌, ◌*◌, ◌<◌, length, set};
ghost use Rattle.program.specs.Chosen.{numbers, Admitted};
ghost use Rattle.automaton.specs.Flags.{Starts};
ghost use Rattle.automaton.specs.NextStates.{Answers};
ghost use Rattle.base.specs.Flags.{is_set};
ghost use Rattle.program.specs.Program.{Program};
ghost use Rattle.program.specs.Frames.{edge_key};
ghost use Rattle.program.specs.WellFormed.{WellFormed};
ghost use Rattle.tables.specs.Keys.{Ascending};
ghost use Rattle.program.specs.Decoded.{edge_keys_of, edge_of, program_of};
ghost use Rattle.program.specs.Reading.{read_file};
ghost use Rattle.program.specs.Refusals.{verdict_by};
ghost use Rattle.reach.specs.Sizes.{routine_span};
ghost use Rattle.reach.specs.Configurations.{Usable, routine_of, none_set};
ghost use Rattle.reach.specs.Ranged.{Sized};
ghost use Rattle.reach.specs.Marks.{Shows};
ghost use Rattle.analysis.specs.Answers.{checked_marks, work_after};
ghost use Rattle.prune.specs.Pruning.{Kept, Pruned};
ghost use Rattle.prune.specs.Parts.{keeps_at, Passed, Settled, Sound, Started};
ghost use Rattle.support.specs.Parts.{PartOf};

use automaton::flags::initial_flags;
use automaton::next::next_states;
use automaton::sizes::MAX_STATES;
use base::flags::{clear, is_set, set_flag};
use checks::passed_program;
use index::part::first_of;
use program::DecodedProgram;
use program::chosen::sizes_of;
use program::edges::Edges;
use program::refusal::RefusedAt;
use program::sizes::{MAX_EDGES, Sizes};
use reach::configuration::{entry_of, number_of, parts_of};
use reach::spans::routine_span;
use support::has_support;
use tables::in_use;

// Keeps a configuration that is marked, where the flag says so.
fn keep_when(yes: bool, marks: &[u8], kept: &mut [u8], at: usize)
    ensures { kept.new ≡ cond (yes && is_set marks.now at) (set kept.old at 1)
        kept.old }
{
    if yes && is_set(marks, at) {
        set_flag(kept, at);
    }
}

// The starts: main's entry in each initial state, with that state as its root.
fn keep_starts(z: Sizes, initial: &[u8; MAX_STATES], marks: &[u8], kept: &mut [u8])
    requires usable { Usable z × Admitted z × (0 < z.routines) }
    requires marks_len { (length marks.now ≡ numbers z) × (length kept.old ≡ numbers z) }
    ensures { (p : Program) → Starts p.automaton initial.now
        → Sound z p marks.now kept.old
        → Started z p marks.now kept.new z.states }
{
    for q in 0..z.states {
        let at = entry_of(z, 0, q);
        keep_when(initial[q as usize] != 0, marks, kept, at);
    }
}

// Whether the configuration of number i is to be kept next: it is marked, not yet kept, and supported by what is kept.
// `part` has the edges of its routine: hence the `requires`.
fn is_next(
    z: Sizes,
    keys: &[u32],
    part: &[u32],
    next: &[u16],
    marks: &[u8],
    kept: &[u8],
    i: usize,
) -> bool
    requires usable { Usable z × Admitted z × (i < numbers z) × PartOf keys.now (routine_of z i) part.now }
    requires marks_len { (length marks.now ≡ numbers z) × (length kept.now ≡ numbers z) }
    ensures { result ≡ keeps_at z keys.now next.now marks.now kept.now i }
{
    marks[i] != 0 && kept[i] == 0 && has_support(z, keys, part, next, kept, parts_of(z, i))
}

// Keeps the configuration of number i, if it is the next to be kept. Says whether it did. `part` has the edges of its
// routine: hence the `requires`.
fn keep_at(
    z: Sizes,
    keys: &[u32],
    part: &[u32],
    next: &[u16],
    marks: &[u8],
    kept: &mut [u8],
    i: usize,
) -> bool
    requires usable { Usable z × Admitted z × (i < numbers z) × PartOf keys.now (routine_of z i) part.now }
    requires marks_len { (length marks.now ≡ numbers z) × (length kept.old ≡ numbers z) }
    ensures { (result ≡ keeps_at z keys.now next.now marks.now kept.old i)
        × (kept.new ≡ cond result (set kept.old i 1) kept.old) }
{
    if is_next(z, keys, part, next, marks, kept, i) {
        kept[i] = 1;
        true
    } else {
        false
    }
}

// The numbers of routine f in turn. Says whether it kept one more. `part` has the routine's edges: hence the
// `requires`.
fn keep_numbers(
    z: Sizes,
    keys: &[u32],
    part: &[u32],
    next: &[u16],
    marks: &[u8],
    kept: &mut [u8],
    f: u8,
) -> bool
    requires usable { Usable z × Admitted z × (f < z.routines) × PartOf keys.now f part.now }
    requires marks_len { (length marks.now ≡ numbers z) × (length kept.old ≡ numbers z) }
    ensures { Passed z (keeps_at z keys.now next.now marks.now) kept.old
        kept.new result (f * routine_span z) (f * routine_span z + routine_span z) }
{
    let first = number_of(z, f, 0, 0, 0);
    let mut more = false;
    for i in first..first + routine_span(z) {
        more |= keep_at(z, keys, part, next, marks, kept, i);
    }
    more
}

// The turn of routine f in a pass: its part of the table is found once for all its numbers. The table ascends, else its
// edges might lie anywhere: hence the `requires`.
fn keep_routine(z: Sizes, keys: &[u32], next: &[u16], marks: &[u8], kept: &mut [u8], f: u8) -> bool
    requires usable { Usable z × Admitted z × (f < z.routines) × Ascending 0 (map edge_key (map edge_of keys.now)) }
    requires marks_len { (length marks.now ≡ numbers z) × (length kept.old ≡ numbers z) }
    ensures { Passed z (keeps_at z keys.now next.now marks.now) kept.old
        kept.new result (f * routine_span z) (f * routine_span z + routine_span z) }
{
    let from = first_of(keys, f as u32);
    let to = first_of(keys, f as u32 + 1);
    keep_numbers(z, keys, &keys[from..to], next, marks, kept, f)
}

// One pass over all numbers, routine by routine. Says whether it kept one more. The table ascends, so that each
// routine's edges are one part of it: hence the `requires`.
fn keep_pass(z: Sizes, keys: &[u32], next: &[u16], marks: &[u8], kept: &mut [u8]) -> bool
    requires usable { Usable z × Admitted z × Ascending 0 (map edge_key (map edge_of keys.now)) }
    requires marks_len { (length marks.now ≡ numbers z) × (length kept.old ≡ numbers z) }
    ensures { Passed z (keeps_at z keys.now next.now marks.now) kept.old
        kept.new result 0 (numbers z) }
{
    let mut more = false;
    for f in 0..z.routines {
        more |= keep_routine(z, keys, next, marks, kept, f);
    }
    more
}

// Passes until one keeps nothing more. The table ascends, as a pass asks: hence the `requires`.
fn keep_all(z: Sizes, keys: &[u32], next: &[u16], marks: &[u8], kept: &mut [u8])
    requires usable { Usable z × Admitted z × Ascending 0 (map edge_key (map edge_of keys.now)) }
    requires marks_len { (length marks.now ≡ numbers z) × (length kept.old ≡ numbers z) }
    ensures { Settled z (keeps_at z keys.now next.now marks.now) kept.old
        kept.new }
{
    let mut more = true;
    while more {
        more = keep_pass(z, keys, next, marks, kept);
    }
}

// Passes over the edges of a program of which the starts are kept: what is kept in the end is all that has support.
// From here on the table is cut to what is in use. It ascends, as a well-formed program's does: hence the `requires`.
fn keep_supported(z: Sizes, edges: Edges, next: &[u16], marks: &[u8], kept: &mut [u8])
    requires usable { Usable z × Admitted z × Ascending 0 (map edge_key (map edge_of (edge_keys_of edges))) }
    requires marks_len { (length marks.now ≡ numbers z) × (length kept.old ≡ numbers z) }
    ensures { (p : Program) → WellFormed p → Sized z p → p.edges ≡ map edge_of (edge_keys_of edges)
        → Answers p.automaton p.routines next.now
        → Started z p marks.now kept.old z.states
        → Shows z (Kept z p marks.now) kept.new }
{
    let keys = edges.keys;
    let m = in_use(edges.count, MAX_EDGES);
    keep_all(z, &keys[..m], next, marks, kept);
}

// What stays of the marks. It is gathered in a buffer of its own, so that a mark is never its own support. The table of
// next states asks for an automaton in range, as a well-formed program has: hence the `requires`.
fn keep(z: Sizes, p: DecodedProgram, marks: &[u8], kept: &mut [u8])
    requires well_formed { WellFormed (program_of p) × Sized z (program_of p) }
    requires marks_len { (length marks.now ≡ numbers z) × (length kept.old ≡ numbers z) }
    ensures { Shows z (Kept z (program_of p) marks.now) kept.new }
{
    let automaton = p.automaton;
    let edges = p.edges;
    let initial = initial_flags(automaton);
    let flags = initial.flags;
    let answers = next_states(automaton, p.routines);
    let next = answers.sets;
    clear(kept);
    keep_starts(z, &flags, marks, kept);
    keep_supported(z, edges, &next, marks, kept);
}

// Of the marks those stay, as 1, that have support back to a start through marked configurations; all else becomes 0.
// The reader accepts only well-formed programs, and the caller has measured the buffers (refusals 9 and 11): hence the
// `requires`.
pub fn prune_program(z: Sizes, p: DecodedProgram, marks: &mut [u8], work: &mut [u8])
    requires well_formed { WellFormed (program_of p) × Sized z (program_of p) }
    requires marks_len { (length marks.old ≡ numbers z) × (length work.old ≡ numbers z) }
    ensures { Shows z (Kept z (program_of p) marks.old) marks.new
        × (work.new ≡ none_set z) }
{
    keep(z, p, marks, work);
    let _copied = base::bytes::copy(work, marks);
    clear(work);
}

// Pruning by a file's program, of any marks. A refusal leaves both buffers alone; on success the working buffer is
// all zero.
pub fn prune(file: &[u8], marks: &mut [u8], work: &mut [u8]) -> Result<(), RefusedAt>
    ensures { (verdict_by result ≡ checked_marks file.now marks.old work.old)
        × Pruned (checked_marks file.now marks.old work.old)
        (read_file file.now).program marks.old marks.new
        × (work.new ≡ work_after file.now marks.old work.old) }
{
    let p = passed_program(file, Some(marks.len()), None, Some(work.len()))?;
    prune_program(sizes_of(p), p, marks, work);
    Ok(())
}

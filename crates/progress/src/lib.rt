// What is known after some lines of a file: at the start, and after a line without a fault.
#![tactic(auto)]

ghost use Rattle.std.specs.Prelude.{◌≡◌, true, List, [], ◌<◌, ◌^◌, eqb, length, take};
ghost use Rattle.automaton.specs.Sizes.{max_states, max_transitions};
ghost use Rattle.automaton.specs.Decoded.{states_of, transition_keys_of, transition_of, automaton_of};
ghost use Rattle.rows.specs.Rows.{max_rows, TableRow};
ghost use Rattle.rows.specs.Decoded.{row_keys_of, rows_of};
ghost use Rattle.program.specs.Sizes.{max_routines, max_edges};
ghost use Rattle.program.specs.Frames.{kind};
ghost use Rattle.program.specs.Reading.{start, transition_in, row_in, more, automaton_after, program_after, after};
ghost use Rattle.program.specs.Decoded.{nodes_of, edge_keys_of, program_of};
ghost use Rattle.program.specs.RoomParts.{RoomInAutomaton, Room, RoomForRow};
ghost use Rattle.frames.specs.Kinds.{place_of};
ghost use Rattle.progress.specs.Progress.{progress_of};

use automaton::transitions::{Transitions, transition_key};
use automaton::{DecodedAutomaton, States};
use base::choose;
use frames::{FrameKind, edge_in, key_of, kind_of, number, row_in};
use program::edges::Edges;
use program::{DecodedProgram, Nodes, no_program};
use rows::Rows;
use tables::with_entry;
use text::Line;

// What is known after some frames, but for the rows.
#[derive(Clone, Copy)]
pub struct Reader {
    pub last: u64,
    pub frames: usize,
    pub ended: bool,
    pub program: DecodedProgram,
}

pub fn start_reader() -> Reader
    ensures { progress_of result [] ≡ start }
{
    let program = no_program();
    Reader {
        last: 0,
        frames: 0,
        ended: false,
        program,
    }
}

// One entry more at the end, where it is wanted.
fn add_entry<T: Copy>(list: &mut [T], count: usize, yes: bool, x: T) -> usize
    requires { yes ≡ true → count < length list.old }
    ensures { take result list.new ≡ more yes x (take count list.old) }
{
    if yes {
        with_entry(list, count, x)
    } else {
        count
    }
}

// Each changes the list where it stands: a line adds one entry at most, and the rest is not moved for it.
fn add_transition(t: &mut Transitions, yes: bool, key: u32)
    requires { yes ≡ true → length (transition_keys_of t.old) < max_transitions }
    ensures { transition_keys_of t.new ≡ more yes key (transition_keys_of t.old) }
{
    t.count = add_entry(&mut t.keys, t.count, yes, key);
}

fn add_state(s: &mut States, yes: bool, q: u8)
    requires { yes ≡ true → length (states_of s.old) < max_states }
    ensures { states_of s.new ≡ more yes q (states_of s.old) }
{
    s.count = add_entry(&mut s.list, s.count, yes, q);
}

fn add_node(n: &mut Nodes, yes: bool, nodes: u8)
    requires { yes ≡ true → length (nodes_of n.old) < max_routines }
    ensures { nodes_of n.new ≡ more yes nodes (nodes_of n.old) }
{
    n.count = add_entry(&mut n.list, n.count, yes, nodes);
}

fn add_edge(t: &mut Edges, yes: bool, key: u32)
    requires { yes ≡ true → length (edge_keys_of t.old) < max_edges }
    ensures { edge_keys_of t.new ≡ more yes key (edge_keys_of t.old) }
{
    t.count = add_entry(&mut t.keys, t.count, yes, key);
}

fn add_row(t: &mut Rows, yes: bool, key: u64)
    requires { yes ≡ true → length (row_keys_of t.old) < max_rows }
    ensures { row_keys_of t.new ≡ more yes key (row_keys_of t.old) }
{
    t.count = add_entry(&mut t.keys, t.count, yes, key);
}

fn transition_in(l: Line) -> u32
    ensures { transition_of result ≡ transition_in l }
{
    transition_key(number(l, 1), number(l, 2), number(l, 3))
}

fn note_in_automaton(a: &mut DecodedAutomaton, kind: Option<FrameKind>, l: Line)
    requires { RoomInAutomaton (automaton_of a.old) (place_of kind) }
    ensures { automaton_of a.new ≡ automaton_after (automaton_of a.old) (place_of kind) l }
{
    let q = number(l, 1);
    let in_header = kind == Some(FrameKind::Header);
    let is_transition = kind == Some(FrameKind::Transition);
    add_transition(&mut a.transitions, is_transition, transition_in(l));
    add_state(&mut a.initial, kind == Some(FrameKind::Initial), q);
    add_state(&mut a.rejecting, kind == Some(FrameKind::Rejecting), q);
    a.states = choose(in_header, number(l, 2), a.states);
    a.actions = choose(in_header, number(l, 3), a.actions);
}

fn note_in_program(p: &mut DecodedProgram, kind: Option<FrameKind>, l: Line)
    requires { Room (program_of p.old) (place_of kind) }
    ensures { program_of p.new ≡ program_after (program_of p.old) (place_of kind) l }
{
    add_node(&mut p.nodes, kind == Some(FrameKind::Routine), number(l, 2));
    add_edge(&mut p.edges, kind == Some(FrameKind::Edge), edge_in(l));
    note_in_automaton(&mut p.automaton, kind, l);
    p.routines = choose(kind == Some(FrameKind::Header), number(l, 1), p.routines);
}

// All but the rows, in place: what is known is larger than a line by far, and is not copied for each of hundreds. A frame
// without a fault always finds room, and no file has 2^63 frames: hence the `requires`.
#[tactic(auto, unfolding(program::specs::Reading::after, program::specs::Reading::after_as))]
pub fn note_frame(s: &mut Reader, l: Line)
    requires { Room (program_of s.old.program) (kind l) × (s.old.frames < 2 ^ 63) }
    ensures { (rows : List TableRow)
        → progress_of s.new (more (eqb (kind l) 5) (row_in s.old.program.automaton.states l) rows) ≡ after (progress_of s.old rows) l }
{
    let kind = kind_of(l);
    note_in_program(&mut s.program, kind, l);
    s.last = key_of(kind, l);
    s.frames += 1;
    s.ended = kind == Some(FrameKind::End);
}

// The same by value: what was known stays as it was.
pub fn after_frame(s: Reader, l: Line) -> Reader
    requires { Room (program_of s.program) (kind l) × (s.frames < 2 ^ 63) }
    ensures { (rows : List TableRow)
        → progress_of result (more (eqb (kind l) 5) (row_in s.program.automaton.states l) rows) ≡ after (progress_of s rows) l }
{
    let mut next = s;
    note_frame(&mut next, l);
    next
}

// The rows after a line without a fault, which finds room: hence the `requires`. They stand beside what else is known,
// and are changed in place too.
pub fn note_row(states: u8, rows: &mut Rows, l: Line)
    requires { RoomForRow (rows_of rows.old) (kind l) }
    ensures { rows_of rows.new ≡ more (eqb (kind l) 5) (row_in states l) (rows_of rows.old) }
{
    add_row(rows, kind_of(l) == Some(FrameKind::Row), row_in(states, l));
}

// The same by value.
pub fn rows_after(states: u8, t: Rows, l: Line) -> Rows
    requires { RoomForRow (rows_of t) (kind l) }
    ensures { rows_of result ≡ more (eqb (kind l) 5) (row_in states l) (rows_of t) }
{
    let mut next = t;
    note_row(states, &mut next, l);
    next
}

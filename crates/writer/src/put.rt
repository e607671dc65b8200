// Writing a program's frames, a section after the other.
ghost use Rattle.std.specs.Prelude.{◌≡◌, ◌++◌, map, ◌<◌, ◌≤◌, length, drop};
ghost use Rattle.text.specs.Lines.{line_of};
ghost use Rattle.automaton.specs.Decoded.{transition_of, automaton_of};
ghost use Rattle.program.specs.Sizes.{max_routines, max_frames};
ghost use Rattle.program.specs.Frames.{header_frame, edge_frame, transition_frame, end_frame};
ghost use Rattle.program.specs.Writing.{frames_of, written};
ghost use Rattle.program.specs.WellFormed.{All};
ghost use Rattle.program.specs.Program.{transition_fits};
ghost use Rattle.program.specs.Decoded.{edge_of, program_of};
ghost use Rattle.writer.specs.Parts.{lower_byte, starts_within, key_frame, byte_frame, byte_frames};
ghost use Rattle.writer.specs.Parts.{automaton_frames, RoomFor, Put};

use automaton::DecodedAutomaton;
use automaton::sizes::{MAX_STATES, MAX_TRANSITIONS};
use automaton::transitions::transition;
use program::DecodedProgram;
use program::edges::edge;
use program::sizes::{MAX_EDGES, MAX_ROUTINES};
use tables::in_use;
use text::{Line, put_line};

fn header_line(routines: u8, states: u8, actions: u8) -> Line
    ensures { result ≡ line_of (header_frame routines states actions) }
{
    let numbers = [0x50, routines, states, actions, 0, 0, 0, 0];
    Line { count: 4, numbers }
}

// The end frame. Two numbers, four digits, hold so many: hence the `requires`.
pub fn end_line(frames: usize) -> Line
    requires { frames < 65536 }
    ensures { result ≡ line_of (end_frame frames) }
{
    let numbers = [
        0x45,
        (frames / 256) as u8,
        (frames % 256) as u8,
        0,
        0,
        0,
        0,
        0,
    ];
    Line { count: 3, numbers }
}

// The line of an entry of a list: of a routine, kind 52, its number and how many nodes it has; of a state the state
// alone.
fn entry_line(kind: u8, i: u8, x: u8) -> Line
    ensures { result ≡ line_of (byte_frame kind i x) }
{
    if kind == 0x52 {
        let numbers = [0x52, i, x, 0, 0, 0, 0, 0];
        Line { count: 3, numbers }
    } else {
        let numbers = [kind, x, 0, 0, 0, 0, 0, 0];
        Line { count: 2, numbers }
    }
}

fn edge_line(key: u32) -> Line
    ensures { result ≡ line_of (edge_frame (edge_of key)) }
{
    let e = edge(key);
    let numbers = [0x53, e.routine, e.source, e.label, e.target, 0, 0, 0];
    Line { count: 5, numbers }
}

fn transition_line(key: u32) -> Line
    ensures { result ≡ line_of (transition_frame (lower_byte (transition_of key))) }
{
    let t = transition(key);
    let numbers = [
        0x54,
        (t.before % 256) as u8,
        t.label as u8,
        t.after as u8,
        0,
        0,
        0,
        0,
    ];
    Line { count: 4, numbers }
}

// The line of an edge, kind 53, or of a transition.
fn key_line(kind: u8, key: u32) -> Line
    ensures { result ≡ line_of (key_frame kind key) }
{
    if kind == 0x53 {
        edge_line(key)
    } else {
        transition_line(key)
    }
}

// A frame of the kind for each entry of a list. The number of a routine is one byte: hence the first `requires`.
fn put_bytes(out: &mut [u8], at: usize, kind: u8, list: &[u8]) -> usize
    requires short { length list.now ≤ max_routines }
    requires room { RoomFor (byte_frames kind list.now) out.old at }
    ensures { Put (byte_frames kind list.now) out.old out.new at result }
{
    let mut pos = at;
    for (i, x) in list.iter().enumerate() {
        pos = put_line(out, pos, entry_line(kind, i as u8, *x));
    }
    pos
}

// A frame of the kind for each key of a table.
fn put_keys(out: &mut [u8], at: usize, kind: u8, keys: &[u32]) -> usize
    requires { RoomFor (map (key_frame kind) keys.now) out.old at }
    ensures { Put (map (key_frame kind) keys.now) out.old out.new at result }
{
    let mut pos = at;
    for key in keys {
        pos = put_line(out, pos, key_line(kind, *key));
    }
    pos
}

// The frames of the automaton. Two digits hold the number of any of its states: hence the first `requires`.
fn put_automaton(out: &mut [u8], at: usize, r: DecodedAutomaton) -> usize
    requires within { All (starts_within (automaton_of r)) (automaton_of r).transitions }
    requires room { RoomFor (automaton_frames (automaton_of r)) out.old at }
    ensures { Put (automaton_frames (automaton_of r)) out.old out.new at result }
{
    let transitions = in_use(r.transitions.count, MAX_TRANSITIONS);
    let initial = in_use(r.initial.count, MAX_STATES);
    let rejecting = in_use(r.rejecting.count, MAX_STATES);
    let after_transitions = put_keys(out, at, 0x54, &r.transitions.keys[..transitions]);
    let after_initial = put_bytes(out, after_transitions, 0x49, &r.initial.list[..initial]);
    put_bytes(out, after_initial, 0x46, &r.rejecting.list[..rejecting])
}

// How many frames come before the end frame.
fn frame_count(p: DecodedProgram) -> usize
    ensures { (result ≡ length (frames_of (program_of p))) × (result ≤ max_frames) }
{
    let nodes = in_use(p.nodes.count, MAX_ROUTINES);
    let edges = in_use(p.edges.count, MAX_EDGES);
    let transitions = in_use(p.automaton.transitions.count, MAX_TRANSITIONS);
    let initial = in_use(p.automaton.initial.count, MAX_STATES);
    let rejecting = in_use(p.automaton.rejecting.count, MAX_STATES);
    1 + nodes + edges + transitions + initial + rejecting
}

// Writes a program at the start of the output, and returns how many bytes that took. The caller has measured the output
// (refusal 10), and no program that the reader accepts is longer; nor has it a transition that does not fit, whose
// numbers two digits could not hold: hence the two `requires`.
pub fn write_program(out: &mut [u8], p: DecodedProgram) -> usize
    requires fits { All (transition_fits (program_of p)) (program_of p).automaton.transitions }
    requires room { length (written (program_of p)) ≤ length out.old }
    ensures { (result ≡ length (written (program_of p)))
        × (out.new ≡ written (program_of p) ++ drop (length (written (program_of p))) out.old) }
{
    let nodes = in_use(p.nodes.count, MAX_ROUTINES);
    let edges = in_use(p.edges.count, MAX_EDGES);
    let automaton = p.automaton;
    let header = header_line(p.routines, automaton.states, automaton.actions);
    let after_header = put_line(out, 0, header);
    let after_nodes = put_bytes(out, after_header, 0x52, &p.nodes.list[..nodes]);
    let after_edges = put_keys(out, after_nodes, 0x53, &p.edges.keys[..edges]);
    let after_automaton = put_automaton(out, after_edges, automaton);
    let end = end_line(frame_count(p));
    put_line(out, after_automaton, end)
}

// Reading a file: its program, or its refusal.
#![tactic(auto)]

ghost use Rattle.std.specs.Prelude.{◌≡◌, List, length, take};
ghost use Rattle.rows.specs.Rows.{TableRow};
ghost use Rattle.program.specs.Reading.{judge, read_file};
ghost use Rattle.program.specs.Refusals.{number_met};
ghost use Rattle.progress.specs.Progress.{progress_of};
ghost use Rattle.outcome.specs.Outcome.{outcome_of};

use judge::fault_by;
use order::Counts;
use outcome::finish;
use program::DecodedProgram;
use program::refusal::{Refusal, RefusedAt};
use progress::{Reader, note_frame, note_row, start_reader};
use ranges::limits_of;
use rows::{no_rows, row_count};
use tables::in_use;
use text::Line;

// How many entries of a list are in use, by its count.
fn used<T>(count: usize, list: &[T]) -> usize
    ensures { result ≡ length (take count list.now) }
{
    in_use(count, list.len())
}

// Whether a line is refused after so many rows. What is known is only looked at: it is not copied for each line.
fn fault_of(s: &Reader, rows: usize, l: Line) -> Result<(), Refusal>
    ensures { (before : List TableRow) → rows ≡ length before → number_met result ≡ judge (progress_of s.now before) l }
{
    let p = &s.program;
    let t = &p.automaton.transitions;
    let counts = Counts {
        frames: s.frames,
        nodes: used(p.nodes.count, &p.nodes.list),
        edges: used(p.edges.count, &p.edges.keys),
        transitions: used(t.count, &t.keys),
        rows,
    };
    fault_by(s.last, counts, limits_of(*p), l)
}

// Reads a file: its program, or why it is refused and at which line. The first faulty line decides.
pub fn read(file: &[u8]) -> Result<DecodedProgram, RefusedAt>
    ensures { outcome_of result ≡ read_file file.now }
{
    let mut s = start_reader();
    let mut rows = no_rows();
    let mut at: usize = 0;
    while at < file.len() {
        let line = s.frames + 1;
        if s.ended {
            return Err(RefusedAt {
                refusal: Refusal::FileEnd,
                line,
            });
        }
        let next = text::read_line(file, at);
        let l = next.line;
        if let Err(refusal) = fault_of(&s, row_count(rows), l) {
            return Err(RefusedAt { refusal, line });
        }
        note_row(s.program.automaton.states, &mut rows, l);
        note_frame(&mut s, l);
        at = next.next;
    }
    if !s.ended {
        return Err(RefusedAt {
            refusal: Refusal::FileEnd,
            line: s.frames + 1,
        });
    }
    finish(s.program, rows)
}

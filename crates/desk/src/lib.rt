// The functions for C: bytes are handed over, and numbers come back. Every number is set on every call. `desk_c` exports
// them.
#![tactic(auto)]

ghost use Rattle.std.specs.Prelude.{[]};
ghost use Rattle.desk.specs.Entries.{Gives, read, sizes, faulty-pair, write, analyze, next_violation, next_blocked, prune};
ghost use Rattle.desk.specs.Entries.{marks_to_frames, frames_to_marks, repair_forward};
ghost use Rattle.desk.specs.Entries.{repair_inside_out, exchange_sizes, exchange_forward, exchange_inside_out};
ghost use Rattle.desk.specs.Entries.{no_values, writing, counts, finding, blocking, sizing, pairing, lent_repair, back_repair};

use answers::{
    analyze_numbers, block_numbers, next_numbers, pair_numbers, repair_numbers, room_numbers,
    sizes_numbers, verdict_numbers, write_numbers,
};

// Is this file accepted? The line of its refusal is set.
pub fn palthrenni_read(file: &[u8], line: &mut u32) -> u32
    ensures { Gives read (record {
      file = file.entry.now;
      marks = [];
      text = [];
      output = [];
      work = [];
      second = [];
      limit = 0;
      from = 0;
    })
        (record {
          refusal = result;
          line = line.new;
          values = no_values;
          marks = [];
          output = [];
          work = [];
          second = [];
        }) }
{
    let read = reader::read(file);
    let numbers = verdict_numbers(&read);
    *line = numbers.line;
    numbers.refusal
}

// How large is an accepted file's program? The line of a refusal, the counts of routines and states, the largest count
// of nodes and the length of the marks are set.
pub fn palthrenni_sizes(
    file: &[u8],
    line: &mut u32,
    routines: &mut u32,
    nodes: &mut u32,
    states: &mut u32,
    marks_size: &mut u32,
) -> u32
    ensures { Gives sizes (record {
      file = file.entry.now;
      marks = [];
      text = [];
      output = [];
      work = [];
      second = [];
      limit = 0;
      from = 0;
    })
        (record {
          refusal = result;
          line = line.new;
          values = sizing routines.new nodes.new states.new marks_size.new 0;
          marks = [];
          output = [];
          work = [];
          second = [];
        }) }
{
    let read = reader::read(file);
    let numbers = verdict_numbers(&read);
    let told = sizes_numbers(&read);
    *line = numbers.line;
    *routines = told.routines;
    *nodes = told.nodes;
    *states = told.states;
    *marks_size = told.marks;
    numbers.refusal
}

// By which pair is the table of a file with rows refused? The line of a refusal is set, and where that is 19 or 20 the
// state and the action of the first faulty pair, else 0 and 0.
pub fn palthrenni_faulty_pair(file: &[u8], line: &mut u32, state: &mut u32, action: &mut u32) -> u32
    ensures { Gives faulty-pair (record {
      file = file.entry.now;
      marks = [];
      text = [];
      output = [];
      work = [];
      second = [];
      limit = 0;
      from = 0;
    })
        (record {
          refusal = result;
          line = line.new;
          values = pairing (record { state = state.exit.now; action = action.new });
          marks = [];
          output = [];
          work = [];
          second = [];
        }) }
{
    let read = reader::read(file);
    let numbers = verdict_numbers(&read);
    let told = pair_numbers(&read);
    *line = numbers.line;
    *state = told.state;
    *action = told.action;
    numbers.refusal
}

// Writes the program of a file at the start of the output. The line of a refusal and the count of bytes written are
// set.
pub fn palthrenni_write(file: &[u8], output: &mut [u8], line: &mut u32, written: &mut u32) -> u32
    ensures { Gives write (record {
      file = file.entry.now;
      marks = [];
      text = [];
      output = output.old;
      work = [];
      second = [];
      limit = 0;
      from = 0;
    })
        (record {
          refusal = result;
          line = line.new;
          values = writing written.new;
          marks = [];
          output = output.new;
          work = [];
          second = [];
        }) }
{
    let a = writer::write(file, output);
    let numbers = write_numbers(a);
    *line = numbers.line;
    *written = numbers.written;
    numbers.refusal
}

// Sets the marks of all reachable configurations of a file's program, or gives up where the limit is not enough. The
// line of a refusal and the three counts are set.
pub fn palthrenni_analyze(
    file: &[u8],
    marks: &mut [u8],
    work: &mut [u8],
    limit: u64,
    line: &mut u32,
    configurations: &mut u32,
    violations: &mut u32,
    iterations: &mut u32,
) -> u32
    ensures { Gives analyze (record {
      file = file.entry.now;
      marks = marks.old;
      text = [];
      output = [];
      work = work.old;
      second = [];
      limit = limit;
      from = 0;
    })
        (record {
          refusal = result;
          line = line.new;
          values = counts configurations.new violations.new iterations.new;
          marks = marks.new;
          output = [];
          work = work.new;
          second = [];
        }) }
{
    let a = analysis::analyze(file, marks, work, limit as usize);
    let numbers = analyze_numbers(a);
    *line = numbers.line;
    *configurations = numbers.configurations;
    *violations = numbers.violations;
    *iterations = numbers.iterations;
    numbers.refusal
}

// The first violation not below the number. The line of a refusal and the number found are set.
pub fn palthrenni_next_violation(
    file: &[u8],
    marks: &[u8],
    work: &mut [u8],
    from: u32,
    line: &mut u32,
    found: &mut u32,
) -> u32
    ensures { Gives next_violation (record {
      file = file.entry.now;
      marks = marks.now;
      text = [];
      output = [];
      work = work.old;
      second = [];
      limit = 0;
      from = from;
    })
        (record {
          refusal = result;
          line = line.new;
          values = finding found.new;
          marks = marks.now;
          output = [];
          work = work.new;
          second = [];
        }) }
{
    let a = analysis::next_violation(file, marks, work, from as usize);
    let numbers = next_numbers(a);
    *line = numbers.line;
    *found = numbers.found;
    numbers.refusal
}

// The first configuration not below the number at which runs are cut off. The line of a refusal, the number found and
// the place of the edge that is not allowed are set.
pub fn palthrenni_next_blocked(
    file: &[u8],
    marks: &[u8],
    work: &mut [u8],
    from: u32,
    line: &mut u32,
    found: &mut u32,
    edge: &mut u32,
) -> u32
    ensures { Gives next_blocked (record {
      file = file.entry.now;
      marks = marks.now;
      text = [];
      output = [];
      work = work.old;
      second = [];
      limit = 0;
      from = from;
    })
        (record {
          refusal = result;
          line = line.new;
          values = blocking found.new edge.new;
          marks = marks.now;
          output = [];
          work = work.new;
          second = [];
        }) }
{
    let a = block_list::next_blocked(file, marks, work, from as usize);
    let numbers = block_numbers(a);
    *line = numbers.line;
    *found = numbers.found;
    *edge = numbers.edge;
    numbers.refusal
}

// Of the marks those stay that have support back to a start through marked configurations. The line of a refusal is
// set.
pub fn palthrenni_prune(file: &[u8], marks: &mut [u8], work: &mut [u8], line: &mut u32) -> u32
    ensures { Gives prune (record {
      file = file.entry.now;
      marks = marks.old;
      text = [];
      output = [];
      work = work.old;
      second = [];
      limit = 0;
      from = 0;
    })
        (record {
          refusal = result;
          line = line.new;
          values = no_values;
          marks = marks.new;
          output = [];
          work = work.new;
          second = [];
        }) }
{
    let pruned = prune::prune(file, marks, work);
    let numbers = verdict_numbers(&pruned);
    *line = numbers.line;
    numbers.refusal
}

// Moves the old marks of a file's program to frames. The line of a refusal and the count of bytes written are set.
pub fn palthrenni_marks_to_frames(
    file: &[u8],
    old_marks: &[u8],
    output: &mut [u8],
    work: &mut [u8],
    line: &mut u32,
    written: &mut u32,
) -> u32
    ensures { Gives marks_to_frames
        (lent_repair file.now old_marks.now [] output.old work.old [])
        (back_repair result line.new written.new 0 old_marks.now output.new
        work.new []) }
{
    let a = saved::marks_to_frames(file, old_marks, output, work);
    let numbers = write_numbers(a);
    *line = numbers.line;
    *written = numbers.written;
    numbers.refusal
}

// Moves the frames of a file's program back to old marks. The line of a refusal and the count of bytes written are set.
pub fn palthrenni_frames_to_marks(
    file: &[u8],
    frames: &[u8],
    output: &mut [u8],
    work: &mut [u8],
    line: &mut u32,
    written: &mut u32,
) -> u32
    ensures { Gives frames_to_marks
        (lent_repair file.now [] frames.now output.old work.old [])
        (back_repair result line.new written.new 0 [] output.new work.new []) }
{
    let a = saved::frames_to_marks(file, frames, output, work);
    let numbers = write_numbers(a);
    *line = numbers.line;
    *written = numbers.written;
    numbers.refusal
}

// The forward repair by an edit line: the marks become those of the edited program, which is written. The line of a
// refusal and the count of bytes written are set.
pub fn palthrenni_repair_forward(
    file: &[u8],
    marks: &mut [u8],
    edit: &[u8],
    output: &mut [u8],
    work: &mut [u8],
    line: &mut u32,
    written: &mut u32,
) -> u32
    ensures { Gives repair_forward
        (lent_repair file.now marks.old edit.now output.old
        work.old [])
        (back_repair result line.new written.new 0 marks.new output.new
        work.new []) }
{
    let a = repair::repair_with(false, file, marks, edit, output, work);
    let numbers = write_numbers(a);
    *line = numbers.line;
    *written = numbers.written;
    numbers.refusal
}

// The inside-out repair by an edit line: as the forward one, and the set of the reanalyzed routines is set too, bit f
// for routine f.
pub fn palthrenni_repair_inside_out(
    file: &[u8],
    marks: &mut [u8],
    edit: &[u8],
    output: &mut [u8],
    work: &mut [u8],
    line: &mut u32,
    written: &mut u32,
    reanalyzed: &mut u32,
) -> u32
    ensures { Gives repair_inside_out
        (lent_repair file.now marks.old edit.now output.old
        work.old [])
        (back_repair result line.new written.new reanalyzed.new marks.new
        output.new work.new []) }
{
    let a = repair::repair_inside_out(file, marks, edit, output, work);
    let numbers = repair_numbers(a);
    *line = numbers.line;
    *written = numbers.written;
    *reanalyzed = numbers.reanalyzed;
    numbers.refusal
}

// What an exchange by this text has to be lent: the line of a refusal, the largest count of nodes of the new program,
// the length of its marks and that of the working buffer are set.
pub fn palthrenni_exchange_sizes(
    file: &[u8],
    text: &[u8],
    line: &mut u32,
    nodes: &mut u32,
    marks_size: &mut u32,
    work_size: &mut u32,
) -> u32
    ensures { Gives exchange_sizes (record {
      file = file.entry.now;
      marks = [];
      text = text.now;
      output = [];
      work = [];
      second = [];
      limit = 0;
      from = 0;
    })
        (record {
          refusal = result;
          line = line.new;
          values = sizing 0 nodes.new 0 marks_size.new work_size.new;
          marks = [];
          output = [];
          work = [];
          second = [];
        }) }
{
    let a = rewrite::exchange_room(file, text);
    let numbers = room_numbers(a);
    *line = numbers.line;
    *nodes = numbers.nodes;
    *marks_size = numbers.marks;
    *work_size = numbers.work;
    numbers.refusal
}

// The forward exchange of a routine by a text: the marks of the new program go to the new marks, and the program is
// written. The old marks are only read. The line of a refusal and the count of bytes written are set.
pub fn palthrenni_exchange_forward(
    file: &[u8],
    marks: &[u8],
    text: &[u8],
    output: &mut [u8],
    work: &mut [u8],
    new_marks: &mut [u8],
    line: &mut u32,
    written: &mut u32,
) -> u32
    ensures { Gives exchange_forward
        (lent_repair file.now marks.now text.now output.old
        work.old new_marks.old)
        (back_repair result line.new written.new 0 marks.now output.new
        work.new new_marks.new) }
{
    let a = rewrite::exchange_forward(file, marks, text, output, work, new_marks);
    let numbers = write_numbers(a);
    *line = numbers.line;
    *written = numbers.written;
    numbers.refusal
}

// The inside-out exchange: as the forward one, and the set of the reanalyzed routines is set too.
pub fn palthrenni_exchange_inside_out(
    file: &[u8],
    marks: &[u8],
    text: &[u8],
    output: &mut [u8],
    work: &mut [u8],
    new_marks: &mut [u8],
    line: &mut u32,
    written: &mut u32,
    reanalyzed: &mut u32,
) -> u32
    ensures { Gives exchange_inside_out
        (lent_repair file.now marks.now text.now output.old
        work.old new_marks.old)
        (back_repair result line.new written.new reanalyzed.new marks.now
        output.new work.new new_marks.new) }
{
    let a = rewrite::exchange_inside_out(file, marks, text, output, work, new_marks);
    let numbers = repair_numbers(a);
    *line = numbers.line;
    *written = numbers.written;
    *reanalyzed = numbers.reanalyzed;
    numbers.refusal
}

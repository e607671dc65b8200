// Repairs by the text of an exchange: a whole routine of the program is exchanged, the marks of the new program go to a
// second buffer, and its file is written. The old marks are only read.
#![tactic(auto)]

ghost use Rattle.std.specs.Prelude.{◌≡◌, true, eqb, ◌≤◌, length};
ghost use Rattle.program.specs.Sizes.{output_size};
ghost use Rattle.program.specs.Chosen.{sizes_of, numbers};
ghost use Rattle.program.specs.WellFormed.{WellFormed};
ghost use Rattle.program.specs.Decoded.{program_of};
ghost use Rattle.program.specs.Reading.{read_file};
ghost use Rattle.exchange.specs.Changes.{whole, Read, ExchangeText};
ghost use Rattle.exchange.specs.Decoded.{exchange_of};
ghost use Rattle.exchange.specs.Lengths.{sizes_after};
ghost use Rattle.exchange.specs.Wanted.{Fits};
ghost use Rattle.exchange_text.specs.Wanted.{wanted_change};
ghost use Rattle.writer.specs.Answers.{refusal};
ghost use Rattle.analysis.specs.Answers.{owned};
ghost use Rattle.repair.specs.Repairs.{afterwards, zeroed, changed_by, measured, measured_by, wanted_by, repaired, plain};
ghost use Rattle.repair.specs.Repairs.{reanalyzed, InsideOutNumber};
ghost use Rattle.analysis.specs.Owned.{verdict_met};
ghost use Rattle.writer.specs.WriteAnswers.{write_answer_by};
ghost use Rattle.repair.specs.RepairAnswers.{repair_answer_by};
ghost use Rattle.rewrite.specs.Parts.{Measured};
ghost use Rattle.rewrite.specs.RoomAnswers.{room_answer_by};
ghost use Rattle.rewrite.specs.Room.{room_wanted, room_answer};

use analysis::check_own;
use callgraph::routines::bits_of;
use checks::passed_program;
use exchange::DecodedExchange;
use exchange::lengths::{check_lengths, lengths_of, sizes_after};
use exchange_text::wanted_exchange;
use program::DecodedProgram;
use program::chosen::sizes_of;
use program::refusal::{Refusal, RefusedAt};
use program::sizes::Sizes;
use reader::read;
use repair::Repair;
use stages::{clear_whole, mend_exchange};
use writer::put::write_program;

// An exchange, with the sizes of the program before it and after it.
#[derive(Clone, Copy)]
struct SizedExchange {
    before: Sizes,
    after: Sizes,
    exchange: DecodedExchange,
}

// Marks that are not the program's own are refused (17), by an analysis in a part of the working buffer, which is all
// zero afterwards. The caller has measured the buffers: hence the `requires`.
fn check_own_within(p: DecodedProgram, marks: &[u8], work: &mut [u8]) -> Result<(), Refusal>
    requires well_formed { WellFormed (program_of p) }
    requires marks_len { (length marks.now ≡ numbers (sizes_of (program_of p)))
        × (numbers (sizes_of (program_of p)) ≤ length work.old) }
    ensures { (verdict_met result ≡ owned (program_of p) marks.now) × (work.new ≡ zeroed work.old) }
{
    let size = marks.len();
    let own = check_own(p, marks, &mut work[..size]);
    clear_whole(work);
    own
}

// The marks are checked. Where they are the program's own, those of the new program go to the second buffer, and the new
// program is written. The text and the lengths were checked before: hence the `requires`.
fn exchange_own(
    inward: bool,
    p: DecodedProgram,
    s: SizedExchange,
    marks: &[u8],
    output: &mut [u8],
    work: &mut [u8],
    second: &mut [u8],
) -> Result<Repair, RefusedAt>
    requires well_formed { WellFormed (program_of p) × Fits (exchange_of s.exchange) (program_of p)
        × (s.before ≡ sizes_of (program_of p)) × (s.after ≡ sizes_after (exchange_of s.exchange) (program_of p)) }
    requires measured { Measured s.before s.after marks.now output.old work.old second.old }
    ensures { (afterwards (plain (repair_answer_by result)) marks.now output.new work.new second.new
        ≡ changed_by (whole (exchange_of s.exchange)) (program_of p) marks.now output.old
        work.old second.old)
        × (inward ≡ true → InsideOutNumber (eqb (refusal (plain (repair_answer_by result))) 0) (Read (whole (exchange_of s.exchange)))
        (program_of p) (reanalyzed (repair_answer_by result))) }
{
    check_own_within(p, marks, work)?;
    let mended = mend_exchange(
        inward, s.before, s.after, p, s.exchange, marks, second, work,
    );
    let reanalyzed = bits_of(&mended.routines.flags);
    let written = write_program(output, mended.program);
    Ok(Repair {
        written,
        reanalyzed,
    })
}

// The lengths that the text decides on (9, 11); else the marks are left to check. The text, the marks' length and the
// output's were checked before: hence the `requires`.
fn exchange_measured(
    inward: bool,
    p: DecodedProgram,
    exchange: DecodedExchange,
    marks: &[u8],
    output: &mut [u8],
    work: &mut [u8],
    second: &mut [u8],
) -> Result<Repair, RefusedAt>
    requires well_formed { WellFormed (program_of p) × Fits (exchange_of exchange) (program_of p) }
    requires marks_len { (length marks.now ≡ numbers (sizes_of (program_of p))) × (output_size ≤ length output.old) }
    ensures { (afterwards (plain (repair_answer_by result)) marks.now output.new work.new second.new
        ≡ measured_by (measured (whole (exchange_of exchange)) (program_of p) work.old second.old)
        (whole (exchange_of exchange)) (program_of p) marks.now output.old work.old
        second.old)
        × (inward ≡ true → InsideOutNumber (eqb (refusal (plain (repair_answer_by result))) 0) (Read (whole (exchange_of exchange)))
        (program_of p) (reanalyzed (repair_answer_by result))) }
{
    let before = sizes_of(p);
    let after = sizes_after(p, exchange);
    check_lengths(lengths_of(before, after), second.len(), work.len())?;
    let sized = SizedExchange {
        before,
        after,
        exchange,
    };
    exchange_own(inward, p, sized, marks, output, work, second)
}

// The refusals of the text (12, 13, 21, 16, 23); else its lengths are left to check.
fn exchange_wanted(
    inward: bool,
    p: DecodedProgram,
    marks: &[u8],
    text: &[u8],
    output: &mut [u8],
    work: &mut [u8],
    second: &mut [u8],
) -> Result<Repair, RefusedAt>
    requires well_formed { WellFormed (program_of p) }
    requires marks_len { (length marks.now ≡ numbers (sizes_of (program_of p))) × (output_size ≤ length output.old) }
    ensures { (afterwards (plain (repair_answer_by result)) marks.now output.new work.new second.new
        ≡ wanted_by (wanted_change ExchangeText (program_of p) text.now) (program_of p) marks.now
        output.old work.old second.old)
        × (inward ≡ true → InsideOutNumber (eqb (refusal (plain (repair_answer_by result))) 0)
        (wanted_change ExchangeText (program_of p) text.now) (program_of p) (reanalyzed (repair_answer_by result))) }
{
    let exchange = wanted_exchange(p, text)?;
    exchange_measured(inward, p, exchange, marks, output, work, second)
}

// Either repair: the inside-out one where that is asked for, else the forward one. Only the inside-out repair promises
// something of the routines.
fn exchange_file(
    inward: bool,
    file: &[u8],
    marks: &[u8],
    text: &[u8],
    output: &mut [u8],
    work: &mut [u8],
    second: &mut [u8],
) -> Result<Repair, RefusedAt>
    ensures { (afterwards (plain (repair_answer_by result)) marks.now output.new work.new second.new
        ≡ repaired ExchangeText file.now marks.now text.now output.old
        work.old second.old)
        × (inward ≡ true → InsideOutNumber (eqb (refusal (plain (repair_answer_by result))) 0)
        (wanted_change ExchangeText (read_file file.now).program text.now)
        (read_file file.now).program (reanalyzed (repair_answer_by result))) }
{
    let p = passed_program(file, Some(marks.len()), Some(output.len()), None)?;
    exchange_wanted(inward, p, marks, text, output, work, second)
}

// The forward exchange of a file and its marks by a text. The marks must be the file's own, and are left alone. A refusal
// leaves the output and the second buffer alone, and the working buffer too unless it is 17; after 17 and on success the
// working buffer is all zero.
pub fn exchange_forward(
    file: &[u8],
    marks: &[u8],
    text: &[u8],
    output: &mut [u8],
    work: &mut [u8],
    second: &mut [u8],
) -> Result<usize, RefusedAt>
    ensures { afterwards (write_answer_by result) marks.now output.new work.new second.new
        ≡ repaired ExchangeText file.now marks.now text.now output.old
        work.old second.old }
{
    let repair = exchange_file(false, file, marks, text, output, work, second)?;
    Ok(repair.written)
}

// The inside-out exchange: the same, and the answer says which routines were reanalyzed.
pub fn exchange_inside_out(
    file: &[u8],
    marks: &[u8],
    text: &[u8],
    output: &mut [u8],
    work: &mut [u8],
    second: &mut [u8],
) -> Result<Repair, RefusedAt>
    ensures { (afterwards (plain (repair_answer_by result)) marks.now output.new work.new second.new
        ≡ repaired ExchangeText file.now marks.now text.now output.old
        work.old second.old)
        × InsideOutNumber (eqb (refusal (plain (repair_answer_by result))) 0) (wanted_change ExchangeText (read_file file.now).program
        text.now) (read_file file.now).program (reanalyzed (repair_answer_by result)) }
{
    exchange_file(true, file, marks, text, output, work, second)
}

// What an exchange has to be lent: the largest count of nodes of the new program, the length of its marks, and that of
// the working buffer.
#[derive(Clone, Copy, Debug, PartialEq, Eq)]
pub struct ExchangeRoom {
    pub nodes: u8,
    pub marks: usize,
    pub work: usize,
}

// The same for a program that was read.
fn room_wanted(p: DecodedProgram, text: &[u8]) -> Result<ExchangeRoom, RefusedAt>
    ensures { room_answer_by result ≡ room_wanted (program_of p) text.now }
{
    let exchange = wanted_exchange(p, text)?;
    let after = sizes_after(p, exchange);
    let lengths = lengths_of(sizes_of(p), after);
    Ok(ExchangeRoom {
        nodes: after.nodes,
        marks: lengths.second,
        work: lengths.work,
    })
}

pub fn exchange_room(file: &[u8], text: &[u8]) -> Result<ExchangeRoom, RefusedAt>
    ensures { room_answer_by result ≡ room_answer file.now text.now }
{
    let p = read(file)?;
    room_wanted(p, text)
}

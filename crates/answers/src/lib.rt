// The numbers of the answers, as C receives them. What an answer holds fits 32 bits, since the definitions say so: hence
// each `requires`.
#![tactic(auto)]

ghost use Rattle.std.specs.Prelude.{◌≡◌};
ghost use Rattle.program.specs.Chosen.{sizes_of, numbers};
ghost use Rattle.program.specs.Refusals.{verdict_by};
ghost use Rattle.outcome.specs.Outcome.{outcome_of};
ghost use Rattle.writer.specs.WriteAnswers.{write_answer_by};
ghost use Rattle.analysis.specs.AnalyzeAnswers.{analyze_answer_by};
ghost use Rattle.analysis.specs.NextAnswers.{next_answer_by};
ghost use Rattle.block_list.specs.BlockAnswers.{block_answer_by};
ghost use Rattle.repair.specs.RepairAnswers.{repair_answer_by};
ghost use Rattle.rewrite.specs.RoomAnswers.{room_answer_by};
ghost use Rattle.program.specs.Reading.{refusal, refusal_line};
ghost use Rattle.writer.specs.Answers.{refusal as writeRefusal, refusal_line as writeLine, written_length};
ghost use Rattle.analysis.specs.Answers.{analyze_refusal, analyze_line, configuration_count, violation_count};
ghost use Rattle.analysis.specs.Answers.{iteration_count, next_refusal, next_line, next_found};
ghost use Rattle.block_list.specs.Answers.{block_refusal, block_line, block_found, block_edge};
ghost use Rattle.repair.specs.Repairs.{plain, reanalyzed as reanalyzedNumber};
ghost use Rattle.rewrite.specs.Room.{room_refusal, room_line, room_nodes, room_marks, room_work};
ghost use Rattle.answers.specs.Told.{told};
ghost use Rattle.answers.specs.Parts.{VerdictFits, WriteFits, AnalyzeFits, NextFits, BlockFits, RoomFits};

use analysis::MarkCounts;
use blocked::Blocked;
use program::DecodedProgram;
use program::chosen::sizes_of;
use program::refusal::RefusedAt;
use program::sizes::length_of;
use repair::Repair;
use rewrite::ExchangeRoom;

// Told in the place of a number where a search finds none.
const NONE: u32 = 4294967295;

#[derive(Clone, Copy)]
pub struct VerdictNumbers {
    pub refusal: u32,
    pub line: u32,
}

// No file is refused at a line above 819, so that each line fits.
pub fn verdict_numbers<T>(a: &Result<T, RefusedAt>) -> VerdictNumbers
    requires { VerdictFits (verdict_by a.now) }
    ensures { (result.refusal ≡ refusal (verdict_by a.now)) × (result.line ≡ refusal_line (verdict_by a.now)) }
{
    match a {
        Ok(_) => VerdictNumbers {
            refusal: 0,
            line: 0,
        },
        Err(e) => VerdictNumbers {
            refusal: u32::from(e.refusal.number()),
            line: e.line as u32,
        },
    }
}

#[derive(Clone, Copy)]
pub struct WriteNumbers {
    pub refusal: u32,
    pub line: u32,
    pub written: u32,
}

// No program is written as more than 7,712 bytes, so that each length fits.
pub fn write_numbers(a: Result<usize, RefusedAt>) -> WriteNumbers
    requires { WriteFits (write_answer_by a) }
    ensures { (result.refusal ≡ writeRefusal (write_answer_by a)) × (result.line ≡ writeLine (write_answer_by a)) × (result.written ≡ written_length (write_answer_by a)) }
{
    match a {
        Ok(size) => WriteNumbers {
            refusal: 0,
            line: 0,
            written: size as u32,
        },
        Err(e) => WriteNumbers {
            refusal: u32::from(e.refusal.number()),
            line: e.line as u32,
            written: 0,
        },
    }
}

#[derive(Clone, Copy)]
pub struct AnalyzeNumbers {
    pub refusal: u32,
    pub line: u32,
    pub configurations: u32,
    pub violations: u32,
    pub iterations: u32,
}

// There are at most 16,384 configurations and 67,125,248 iterations, so that each count fits.
pub fn analyze_numbers(a: Result<MarkCounts, RefusedAt>) -> AnalyzeNumbers
    requires { AnalyzeFits (analyze_answer_by a) }
    ensures { (result.refusal ≡ analyze_refusal (analyze_answer_by a)) × (result.line ≡ analyze_line (analyze_answer_by a))
        × (result.configurations ≡ configuration_count (analyze_answer_by a)) × (result.violations ≡ violation_count (analyze_answer_by a))
        × (result.iterations ≡ iteration_count (analyze_answer_by a)) }
{
    match a {
        Ok(counts) => AnalyzeNumbers {
            refusal: 0,
            line: 0,
            configurations: counts.configurations as u32,
            violations: counts.violations as u32,
            iterations: counts.iterations as u32,
        },
        Err(e) => AnalyzeNumbers {
            refusal: u32::from(e.refusal.number()),
            line: e.line as u32,
            configurations: 0,
            violations: 0,
            iterations: 0,
        },
    }
}

#[derive(Clone, Copy)]
pub struct NextNumbers {
    pub refusal: u32,
    pub line: u32,
    pub found: u32,
}

pub fn next_numbers(a: Result<Option<usize>, RefusedAt>) -> NextNumbers
    requires { NextFits (next_answer_by a) }
    ensures { (result.refusal ≡ next_refusal (next_answer_by a)) × (result.line ≡ next_line (next_answer_by a)) × (result.found ≡ next_found (next_answer_by a)) }
{
    match a {
        Ok(Some(i)) => NextNumbers {
            refusal: 0,
            line: 0,
            found: i as u32,
        },
        Ok(None) => NextNumbers {
            refusal: 0,
            line: 0,
            found: NONE,
        },
        Err(e) => NextNumbers {
            refusal: u32::from(e.refusal.number()),
            line: e.line as u32,
            found: 0,
        },
    }
}

#[derive(Clone, Copy)]
pub struct BlockNumbers {
    pub refusal: u32,
    pub line: u32,
    pub found: u32,
    pub edge: u32,
}

// An edge's place is below 256, and 4294967295 in its place stands for the return.
pub fn block_numbers(a: Result<Option<Blocked>, RefusedAt>) -> BlockNumbers
    requires { BlockFits (block_answer_by a) }
    ensures { (result.refusal ≡ block_refusal (block_answer_by a)) × (result.line ≡ block_line (block_answer_by a)) × (result.found ≡ block_found (block_answer_by a))
        × (result.edge ≡ block_edge (block_answer_by a)) }
{
    match a {
        Ok(Some(blocked)) => BlockNumbers {
            refusal: 0,
            line: 0,
            found: blocked.number as u32,
            edge: blocked.edge as u32,
        },
        Ok(None) => BlockNumbers {
            refusal: 0,
            line: 0,
            found: NONE,
            edge: 0,
        },
        Err(e) => BlockNumbers {
            refusal: u32::from(e.refusal.number()),
            line: e.line as u32,
            found: 0,
            edge: 0,
        },
    }
}

#[derive(Clone, Copy)]
pub struct RepairNumbers {
    pub refusal: u32,
    pub line: u32,
    pub written: u32,
    pub reanalyzed: u32,
}

// Those of the inside-out repair, the reanalyzed routines among them.
pub fn repair_numbers(a: Result<Repair, RefusedAt>) -> RepairNumbers
    requires { WriteFits (plain (repair_answer_by a)) }
    ensures { (result.refusal ≡ writeRefusal (plain (repair_answer_by a))) × (result.line ≡ writeLine (plain (repair_answer_by a)))
        × (result.written ≡ written_length (plain (repair_answer_by a))) × (result.reanalyzed ≡ reanalyzedNumber (repair_answer_by a)) }
{
    match a {
        Ok(repair) => RepairNumbers {
            refusal: 0,
            line: 0,
            written: repair.written as u32,
            reanalyzed: repair.reanalyzed,
        },
        Err(e) => RepairNumbers {
            refusal: u32::from(e.refusal.number()),
            line: e.line as u32,
            written: 0,
            reanalyzed: 0,
        },
    }
}

#[derive(Clone, Copy)]
pub struct SizesNumbers {
    pub routines: u32,
    pub nodes: u32,
    pub states: u32,
    pub marks: u32,
}

// The sizes of an accepted file's program, and the length of its marks.
pub fn sizes_numbers(read: &Result<DecodedProgram, RefusedAt>) -> SizesNumbers
    ensures { let o = outcome_of read.now in let z = sizes_of o.program in
        (result.routines ≡ told o.verdict z.routines) × (result.nodes ≡ told o.verdict z.nodes)
        × (result.states ≡ told o.verdict z.states) × (result.marks ≡ told o.verdict (numbers z)) }
{
    match read {
        Ok(p) => {
            let z = sizes_of(*p);
            SizesNumbers {
                routines: u32::from(z.routines),
                nodes: u32::from(z.nodes),
                states: u32::from(z.states),
                marks: length_of(z) as u32,
            }
        }
        Err(_) => SizesNumbers {
            routines: 0,
            nodes: 0,
            states: 0,
            marks: 0,
        },
    }
}

#[derive(Clone, Copy)]
pub struct PairNumbers {
    pub state: u32,
    pub action: u32,
}

// The pair that a file's table is refused for; 0 and 0 where there is none.
pub fn pair_numbers(read: &Result<DecodedProgram, RefusedAt>) -> PairNumbers
    ensures { let o = outcome_of read.now in (result.state ≡ o.pair.state) × (result.action ≡ o.pair.action) }
{
    let pair = match read {
        Ok(_) => None,
        Err(e) => e.refusal.pair(),
    };
    match pair {
        None => PairNumbers {
            state: 0,
            action: 0,
        },
        Some(pair) => PairNumbers {
            state: u32::from(pair.state),
            action: u32::from(pair.action),
        },
    }
}

#[derive(Clone, Copy)]
pub struct RoomNumbers {
    pub refusal: u32,
    pub line: u32,
    pub nodes: u32,
    pub marks: u32,
    pub work: u32,
}

// What an exchange has to be lent.
pub fn room_numbers(a: Result<ExchangeRoom, RefusedAt>) -> RoomNumbers
    requires { RoomFits (room_answer_by a) }
    ensures { (result.refusal ≡ room_refusal (room_answer_by a)) × (result.line ≡ room_line (room_answer_by a)) × (result.nodes ≡ room_nodes (room_answer_by a))
        × (result.marks ≡ room_marks (room_answer_by a)) × (result.work ≡ room_work (room_answer_by a)) }
{
    match a {
        Ok(room) => RoomNumbers {
            refusal: 0,
            line: 0,
            nodes: u32::from(room.nodes),
            marks: room.marks as u32,
            work: room.work as u32,
        },
        Err(e) => RoomNumbers {
            refusal: u32::from(e.refusal.number()),
            line: e.line as u32,
            nodes: 0,
            marks: 0,
            work: 0,
        },
    }
}

// What one line is refused for (1 to 7): the lowest decides.
#![tactic(auto)]

ghost use Rattle.std.specs.Prelude.{◌≡◌};
ghost use Rattle.program.specs.Refusals.{number_met};
ghost use Rattle.judge.specs.Judged.{judged_by};

use frames::{kind_of, size_of};
use order::{Counts, in_order, is_full, is_miscounted};
use program::refusal::Refusal;
use ranges::{Limits, in_range};
use text::Line;

// Whether a line is refused, by the last frame's key, how much was read, and what bounds the numbers. No more of what was
// read before has to be known. The lowest refusal decides: they are asked in their order.
pub fn fault_by(last: u64, n: Counts, h: Limits, l: Line) -> Result<(), Refusal>
    ensures { number_met result ≡ judged_by last n h l }
{
    if l.count == 0 {
        return Err(Refusal::BadLine);
    }
    let kind @ Some(_) = kind_of(l) else {
        return Err(Refusal::UnknownKind);
    };
    if l.count != size_of(h.states, kind) {
        return Err(Refusal::WrongCount);
    }
    if !in_order(last, n, h.routines, kind, l) {
        return Err(Refusal::OutOfOrder);
    }
    if !in_range(h, kind, l) {
        return Err(Refusal::OutOfRange);
    }
    if is_full(n, kind) {
        return Err(Refusal::TableFull);
    }
    if is_miscounted(n.frames, kind, l) {
        return Err(Refusal::EndCount);
    }
    Ok(())
}

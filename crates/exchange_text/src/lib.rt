// The text of an exchange: the exchange that it says for a program, or its refusal.
#![tactic(auto)]

mod line;
mod scan;

ghost use Rattle.std.specs.Prelude.{◌≡◌};
ghost use Rattle.program.specs.Decoded.{program_of};
ghost use Rattle.exchange_text.specs.ExchangeText.{wanted_exchange};
ghost use Rattle.exchange_text.specs.Decoded.{read_of};

use exchange::DecodedExchange;
use frames::number;
use line::{bounded_by, is_bad};
use program::DecodedProgram;
use program::refusal::Refusal;
use ranges::limits_of;
use scan::{after_line, conclude, start_scan};
use text::read_line;

// The exchange that a text says for a program, or the first refusal of 12, 13, 21, 16 and 23 that it meets. A bad line
// (12) decides at once; the other refusals wait for the end, for each is over the whole text before the next.
pub fn wanted_exchange(p: DecodedProgram, text: &[u8]) -> Result<DecodedExchange, Refusal>
    ensures { read_of result ≡ wanted_exchange (program_of p) text.now }
{
    let read = read_line(text, 0);
    let first = read.line;
    if is_bad(first) {
        return Err(Refusal::EditLine);
    }
    let h = bounded_by(limits_of(p), first);
    let f = number(first, 1);
    let mut s = start_scan(h, first);
    let mut at = read.next;
    while at < text.len() {
        let next = read_line(text, at);
        let l = next.line;
        if is_bad(l) {
            return Err(Refusal::EditLine);
        }
        s = after_line(s, h, f, l);
        at = next.next;
    }
    conclude(p, first, s)
}

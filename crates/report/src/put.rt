// Putting the lines of a block into an output.
ghost use Rattle.std.specs.Prelude.{◌≡◌, ◌<◌, ◌≤◌, length};
ghost use Rattle.program.specs.Chosen.{numbers, Admitted};
ghost use Rattle.program.specs.Decoded.{program_of};
ghost use Rattle.reach.specs.Configurations.{Usable};
ghost use Rattle.text.specs.Lines.{line_of};
ghost use Rattle.report.specs.Report.{count_frame, block_at, block_size, Printed};

use automaton::flags::rejecting_flags;
use base::flags::count_set;
use listing::put_listing;
use program::DecodedProgram;
use program::sizes::Sizes;
use text::{Line, put_line};
use violations::count_violations;

// No marks have so many that two numbers could not hold a count: hence the `requires`.
fn count_line(configurations: usize, violations: usize) -> Line
    requires { (configurations < 65536) × (violations < 65536) }
    ensures { result ≡ line_of (count_frame configurations violations) }
{
    let numbers = [
        0x5A,
        (configurations / 256) as u8,
        (configurations % 256) as u8,
        (violations / 256) as u8,
        (violations % 256) as u8,
        0,
        0,
        0,
    ];
    Line { count: 5, numbers }
}

// A program's block for some marks. The caller has measured both: hence the `requires`.
pub fn put_block(z: Sizes, p: DecodedProgram, marks: &[u8], out: &mut [u8]) -> usize
    requires { Usable z × Admitted z × (length marks.now ≡ numbers z) × (block_size ≤ length out.old) }
    ensures { Printed (block_at z (program_of p) marks.now) out.old out.new result }
{
    let rule = p.automaton;
    let rejecting = rejecting_flags(rule);
    let flags = rejecting.flags;
    let configurations = count_set(marks);
    let violations = count_violations(z, marks, &flags);
    let at = put_listing(0x58, z, marks, &flags, out);
    let l = count_line(configurations, violations);
    put_line(out, at, l)
}

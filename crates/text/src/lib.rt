// Lines of hexadecimal: reading one at a position, and writing one.
#![tactic(auto)]

ghost use Rattle.std.specs.Prelude.{◌≡◌, [], ◌∷◌, ◌<◌, ◌≤◌, ◌+◌, ◌*◌, length, take, unwrap_or, IfSome};
ghost use Rattle.std.proofs.lemmas.List.Edits.{sets};
ghost use Rattle.text.specs.Hex.{digit, two_digits, hex_digit, hex, hex_line};
ghost use Rattle.text.specs.Lines.{max_numbers, line_of, line_at, grown};

// How many numbers of a line are kept; no format has a longer line.
pub const MAX_NUMBERS: usize = 8;

// The numbers of a line: how many there are, and the first of them.
#[derive(Clone, Copy)]
pub struct Line {
    pub count: usize,
    pub numbers: [u8; MAX_NUMBERS],
}

// A line, and the position of the next one.
#[derive(Clone, Copy)]
pub struct ReadLine {
    pub line: Line,
    pub next: usize,
}

// The value of a digit, where a byte is one.
pub fn digit_value(b: u8) -> Option<u8>
    ensures value { unwrap_or result 16 ≡ digit b }
    ensures below { IfSome result (λ d. d < 16) }
{
    match b {
        b'0'..=b'9' => Some(b - b'0'),
        b'A'..=b'F' => Some(b - b'A' + 10),
        _ => None,
    }
}

// The number that two bytes make, where both are digits.
fn pair(a: u8, b: u8) -> Option<u8>
    ensures value { unwrap_or result 256 ≡ two_digits a b }
    ensures below { IfSome result (λ x. x < 256) }
{
    let high = digit_value(a)?;
    let low = digit_value(b)?;
    Some(high * 16 + low)
}

// One number more; only the first ones are kept.
fn grow(l: Line, x: u8, end: usize) -> Line
    requires { l.count < end }
    ensures { result ≡ grown l x }
{
    let mut longer = l;
    longer.count = l.count + 1;
    if l.count < MAX_NUMBERS {
        longer.numbers[l.count] = x;
    }
    longer
}

// A line without a number: one that is not good.
pub fn no_line() -> Line
    ensures { result ≡ line_of [] }
{
    let numbers = [0u8; MAX_NUMBERS];
    Line { count: 0, numbers }
}

// The line that starts at a position, and where the next one starts.
pub fn read_line(s: &[u8], at: usize) -> ReadLine
    ensures { result ≡ line_at s.now at }
{
    let bad = ReadLine {
        line: no_line(),
        next: 0,
    };
    let mut l = no_line();
    let mut i = at;
    while i < s.len() {
        let j = i + 1;
        if s[i] == b'\n' {
            return ReadLine { line: l, next: j };
        }
        if s.len() <= j {
            return bad;
        }
        let Some(x) = pair(s[i], s[j]) else {
            return bad;
        };
        i = j + 1;
        l = grow(l, x, i);
    }
    bad
}

// The digit for a number below 16. Its two callers pass a quotient and a remainder by 16.
fn hex_digit(n: u8) -> u8
    requires { n < 16 }
    ensures { result ≡ hex_digit n }
{
    if n < 10 { b'0' + n } else { b'A' + (n - 10) }
}

// Two digits at a position.
fn put_number(out: &mut [u8], at: usize, x: u8)
    requires { at + 1 < length out.old }
    ensures { out.new ≡ sets out.old at (hex (x ∷ [])) }
{
    let h = hex_digit(x / 16);
    let l = hex_digit(x % 16);
    let j = at + 1;
    out[at] = h;
    out[j] = l;
}

// Writes a line at a position, and returns the position after it. Whoever writes has measured the room for all
// lines before the first, so that a line needs no refusal of its own: hence the `requires`.
pub fn put_line(out: &mut [u8], at: usize, l: Line) -> usize
    requires { (l.count ≤ max_numbers) × (at + 2 * l.count < length out.old) }
    ensures value { result ≡ at + 2 * l.count + 1 }
    ensures out_after { out.new ≡ sets out.old at (hex_line (take l.count l.numbers)) }
{
    for k in 0..l.count {
        put_number(out, at + 2 * k, l.numbers[k]);
    }
    let end = at + 2 * l.count;
    out[end] = b'\n';
    end + 1
}

// The input of bench: where a line of it ends, and where its file does.
#![tactic(auto)]

ghost use Rattle.std.specs.Prelude.{◌≡◌, ◌<◌, length, drop};
ghost use Rattle.text.specs.Lines.{lines, first_line};
ghost use Rattle.input.specs.Input.{starts_end, file_size, first_size};

// No input that is read is longer.
pub const INPUT_SIZE: usize = 16384;

// Whether the line that starts at a position starts with the characters 45.
fn starts_end(input: &[u8], at: usize) -> bool
    requires { at < length input.now }
    ensures { result ≡ starts_end (first_line (drop at input.now)) }
{
    input[at..].starts_with(b"45")
}

// How many bytes the line that starts at a position has; 0 where nothing is left.
pub fn line_size(input: &[u8], from: usize) -> usize
    ensures { result ≡ first_size (lines (drop from input.now)) }
{
    for i in from..input.len() {
        if input[i] == b'\n' {
            return i + 1 - from;
        }
    }
    input.len().saturating_sub(from)
}

// How many bytes the file of an input has: through its first line that starts with 45, or all of them.
pub fn file_size(input: &[u8]) -> usize
    ensures { result ≡ file_size (lines input.now) }
{
    let mut at: usize = 0;
    while at < input.len() {
        let next = at + line_size(input, at);
        if starts_end(input, at) {
            return next;
        }
        at = next;
    }
    at
}

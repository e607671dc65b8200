// How many routines, nodes a routine and edges a program has at most, and the sizes that a program chooses.
ghost use Rattle.std.specs.Prelude.{◌≡◌, ◌+◌, ◌*◌, ◌^◌, ◌<◌, ◌≤◌};
ghost use Rattle.program.specs.Chosen.{numbers};

pub const MAX_ROUTINES: usize = 16;

pub const MAX_NODES: usize = 64;

pub const MAX_EDGES: usize = 256;

// The most configurations that may have a number: a byte for each.
pub const MARKS_MOST: usize = 16384;

// The least length of an output: no program is written as more bytes.
pub const OUTPUT_SIZE: usize = 7712;

// The sizes that a program chooses: how many routines, the largest count of nodes of one, and how many states. Every
// number of a configuration is computed in them.
#[derive(Clone, Copy)]
pub struct Sizes {
    pub routines: u8,
    pub nodes: u8,
    pub states: u8,
}

// One digit more, in a base that is a byte: the only product of two variables. So many digits fit: hence the
// `requires`.
pub fn with_digit(h: usize, base: u8, l: u8) -> usize
    requires { h ≤ 2 ^ 48 }
    ensures { (result ≡ h * base + l) × (result ≤ h * 255 + 255) }
{
    h * usize::from(base) + usize::from(l)
}

// How many configurations have a number: the length of the marks.
pub fn length_of(z: Sizes) -> usize
    ensures { (result ≡ numbers z) × (result < 2 ^ 32) }
{
    let a = with_digit(usize::from(z.routines), z.nodes, 0);
    let b = with_digit(a, z.states, 0);
    with_digit(b, z.states, 0)
}

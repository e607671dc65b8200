// The numbers of a frame as one number: less means that it stands earlier in a file.
ghost use Rattle.std.specs.Prelude.{◌≡◌};
ghost use Rattle.program.specs.Frames.{packed};

pub fn pack(a: u8, b: u8, c: u8, d: u8) -> u32
    ensures { result ≡ packed a b c d }
{
    u32::from_be_bytes([a, b, c, d])
}

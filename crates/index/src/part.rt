// A part of the table of edges: where that of one routine begins.
ghost use Rattle.std.specs.Prelude.{length};
ghost use Rattle.index.specs.Part.{FirstOf};

use program::edges::first_key;
use tables::first_from;

// Where the edges of the routines that are not below f begin, among keys that ascend.
pub fn first_of(keys: &[u32], f: u32) -> usize
    ensures { FirstOf keys.now (length keys.now) f result }
{
    first_from(keys, first_key(f))
}

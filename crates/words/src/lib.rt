// Flags kept as bits of words, so that the first that is set is found a word at a time.
#![tactic(auto)]

ghost use Rattle.std.specs.Prelude.{◌≡◌, ◌≤◌, length, set};
ghost use Rattle.base.specs.Flags.{is_set};
ghost use Rattle.words.specs.Words.{max_words, flags_of, BitsFrom, NoneBelow, FirstFlag};

pub const WORD_BITS: usize = 64;

// Whether a flag is set: past the end none is.
pub fn has_flag(words: &[u64], at: usize) -> bool
    ensures { result ≡ is_set (flags_of words.now) at }
{
    let i = at / WORD_BITS;
    i < words.len() && (words[i] >> (at % WORD_BITS)) % 2 == 1
}

// The flags from a place on, as many as a word has: they are in two words. A shift by all 64 bits is none, so that the
// second is shifted twice.
pub fn bits_from(words: &[u64], at: usize) -> u64
    ensures { BitsFrom (flags_of words.now) at result }
{
    let i = at / WORD_BITS;
    let s = at % WORD_BITS;
    if i + 1 < words.len() {
        (words[i] >> s) | ((words[i + 1] << 1) << (63 - s))
    } else if i < words.len() {
        words[i] >> s
    } else {
        0
    }
}

// A place past the end is no flag's, and sets none.
pub fn set_at(words: &mut [u64], at: usize)
    ensures { flags_of words.new ≡ set (flags_of words.old) at 1 }
{
    let i = at / WORD_BITS;
    if i < words.len() {
        words[i] |= 1 << (at % WORD_BITS);
    }
}

// A place past the end is no flag's, and clears none.
pub fn clear_at(words: &mut [u64], at: usize)
    ensures { flags_of words.new ≡ set (flags_of words.old) at 0 }
{
    let i = at / WORD_BITS;
    if i < words.len() {
        let bit = 1 << (at % WORD_BITS);
        words[i] = (words[i] | bit) ^ bit;
    }
}

// The first flag that is set, or the count of flags. The search begins at the word of `from`, so that none before it
// may be set: hence the first `requires`. The count of flags has to fit a number: hence the second.
pub fn first_set(words: &[u64], from: usize) -> usize
    requires none_below { NoneBelow (flags_of words.now) from }
    requires words_len_bound { length words.now ≤ max_words }
    ensures { FirstFlag (flags_of words.now) result }
{
    for i in from / WORD_BITS..words.len() {
        let word = words[i];
        if word != 0 {
            return i * WORD_BITS + word.trailing_zeros() as usize;
        }
    }
    words.len() * WORD_BITS
}

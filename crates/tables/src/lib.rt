// Tables of keys. What only asks takes the keys in use alone; what changes a table takes the whole slice, of which the
// first `count` entries are in use: there may be room behind them. A count above the length means all of them.
#![tactic(auto)]

ghost use Rattle.std.specs.Prelude.{◌≡◌, [], ◌∷◌, ◌++◌, min, ◌+◌, ◌≤◌, ◌<◌, length, take};
ghost use Rattle.tables.specs.Keys.{member, inserted_key, between, without_between, without_key, Holds, FirstFrom};

// How many entries of a list are in use: a count above its size means all of them.
pub fn in_use(count: usize, size: usize) -> usize
    ensures { result ≡ min count size }
{
    count.min(size)
}

// Whether a key is in a table.
pub fn has_key(keys: &[u32], key: u32) -> bool
    ensures { result ≡ member key keys.now }
{
    keys.contains(&key)
}

// Where the keys that are not below `low` begin, in a table that ascends: the first that is not below it, or the end.
pub fn first_from(keys: &[u32], low: u64) -> usize
    ensures { FirstFrom low keys.now result }
{
    keys.iter()
        .position(|key| low <= u64::from(*key))
        .unwrap_or(keys.len())
}

// The list with one entry more at its end. Each changes the slice and returns the new count; the caller has judged that
// there is room, where more is to go in: hence each `requires`.
pub fn with_entry<T: Copy>(list: &mut [T], count: usize, x: T) -> usize
    requires { count < length list.old }
    ensures { Holds list.new result (take count list.old ++ (x ∷ [])) }
{
    list[count] = x;
    count + 1
}

// The table with one key more, before the first that is above it.
pub fn insert_key(keys: &mut [u32], count: usize, key: u32) -> usize
    requires { count < length keys.old }
    ensures { Holds keys.new result (inserted_key key (take count keys.old)) }
{
    let at = first_from(&keys[..count], u64::from(key) + 1);
    keys.copy_within(at..count, at + 1);
    keys[at] = key;
    count + 1
}

// The table with more keys at its end.
pub fn with_keys(keys: &mut [u32], count: usize, more: &[u32]) -> usize
    requires { count + length more.now ≤ length keys.old }
    ensures { Holds keys.new result (take count keys.old ++ more.now) }
{
    let end = count + more.len();
    keys[count..end].copy_from_slice(more);
    end
}

// Whether a key is between two numbers: not below the first, and below the second.
fn is_between(low: u64, high: u64, key: u32) -> bool
    ensures { result ≡ between low high key }
{
    (low..high).contains(&u64::from(key))
}

// The table without the keys between two numbers.
pub fn remove_between(keys: &mut [u32], count: usize, low: u64, high: u64) -> usize
    ensures { Holds keys.new result (without_between low high (take count keys.old)) }
{
    let used = in_use(count, keys.len());
    let mut kept = 0;
    for i in 0..used {
        let k = keys[i];
        if !is_between(low, high, k) {
            keys[kept] = k;
            kept += 1;
        }
    }
    kept
}

// The table without a key.
pub fn remove_key(keys: &mut [u32], count: usize, key: u32) -> usize
    ensures { Holds keys.new result (without_key key (take count keys.old)) }
{
    let key = u64::from(key);
    remove_between(keys, count, key, key + 1)
}

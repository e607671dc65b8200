// The automaton's transitions as a table that people fill in: its rows by value, and what they say of each pair of a
// state and an action.
#![tactic(auto)]

ghost use Rattle.std.specs.Prelude.{◌≡◌, ◌&&◌, [], ◌∷◌, ◌++◌, map, ◌≤◌, ◌<◌, ltb, length, IfOk, IfErr};
ghost use Rattle.automaton.specs.Sizes.{max_states, max_actions};
ghost use Rattle.rows.specs.Rows.{max_rows, no_bit_from, pairs, meets, times_met, pair_refusal, next_state};
ghost use Rattle.rows.specs.Decoded.{row_of, row_keys_of, rows_of, pair_of, fault_pair, answer_number, Tabled};

use automaton::sizes::MAX_TRANSITIONS;
use automaton::transitions::{Transitions, transition_key};
use base::bits::has_bit;
use base::choose;
use tables::{in_use, with_entry};

pub const MAX_ROWS: usize = 256;

// The keys of rows, ascending: the first `count` are in use.
#[derive(Clone, Copy)]
pub struct Rows {
    pub count: usize,
    pub keys: [u64; MAX_ROWS],
}

// The state and the action of a pair that a table is refused for.
#[derive(Clone, Copy, Debug, PartialEq, Eq)]
pub struct FaultyPair {
    pub state: u8,
    pub action: u8,
}

// Why a table is refused: no row meets a pair, or two rows or more do.
#[derive(Clone, Copy, Debug, PartialEq, Eq)]
pub enum TableFault {
    NotMet(FaultyPair),
    MetTwice(FaultyPair),
}

// How many rows meet a pair, and the next state that the first of them says.
#[derive(Clone, Copy)]
struct Met {
    times: usize,
    next: u8,
}

pub fn no_rows() -> Rows
    ensures { rows_of result ≡ [] }
{
    let keys = [0u64; MAX_ROWS];
    Rows { count: 0, keys }
}

pub fn row_count(rows: Rows) -> usize
    ensures { result ≡ length (rows_of rows) }
{
    in_use(rows.count, MAX_ROWS)
}

// One row more at the end; the caller has judged that there is room: hence the `requires`.
pub fn add_row(rows: Rows, key: u64) -> Rows
    requires { length (row_keys_of rows) < max_rows }
    ensures { row_keys_of result ≡ row_keys_of rows ++ (key ∷ []) }
{
    let count = rows.count;
    let mut keys = rows.keys;
    keys[count] = key;
    Rows {
        count: count + 1,
        keys,
    }
}

// The key of a row.
pub fn row_key(states: u16, actions: u32, next: u8) -> u64
    ensures { row_of result ≡ record { states = states; actions = actions; next = next } }
{
    ((states as u64) * 0x100000000 + (actions as u64)) * 256 + (next as u64)
}

// Whether no bit is set from the n-th on.
fn has_no_bit_from(n: u8, bits: u64) -> bool
    ensures { result ≡ no_bit_from n bits }
{
    if n < 64 {
        return (bits >> n) == 0;
    }
    true
}

// Whether the row that has this key fits an automaton of so many states and actions.
pub fn row_fits(key: u64, states: u8, actions: u8) -> bool
    ensures { result ≡ no_bit_from states (row_of key).states && no_bit_from actions (row_of key).actions
        && ltb (row_of key).next states }
{
    has_no_bit_from(states, key / 0x10000000000)
        & has_no_bit_from(actions, key / 0x100 % 0x100000000)
        & (key % 256 < states as u64)
}

// Whether the row that has this key has both bits of a pair.
fn meets_pair(key: u64, pair: FaultyPair) -> bool
    ensures { result ≡ meets (pair_of pair) (row_of key) }
{
    has_bit(pair.state, key / 0x10000000000) & has_bit(pair.action, key / 0x100 % 0x100000000)
}

// What the rows say of a pair: the first of them that meets it says the next state. Every pair asks every row, and which
// rows meet it follows no pattern: hence no branch.
fn met_by(keys: &[u64], pair: FaultyPair) -> Met
    ensures { (result.times ≡ times_met (pair_of pair) (map row_of keys.now))
        × (result.next ≡ next_state (pair_of pair) (map row_of keys.now)) }
{
    let mut times = 0;
    let mut next = 0;
    for key in keys {
        let meets = meets_pair(*key, pair);
        next = choose(meets & (times == 0), (*key % 256) as u8, next);
        times += usize::from(meets);
    }
    Met { times, next }
}

// The next state that the rows say for a pair, where one row alone meets it.
fn settled(met: Met, pair: FaultyPair) -> Result<u8, TableFault>
    ensures refusal { answer_number result ≡ pair_refusal met.times }
    ensures at_pair { IfErr result (λ e. fault_pair e ≡ pair_of pair) }
    ensures next { IfOk result (λ s. s ≡ met.next) }
{
    match met.times {
        0 => Err(TableFault::NotMet(pair)),
        1 => Ok(met.next),
        _ => Err(TableFault::MetTwice(pair)),
    }
}

// The transitions of a table, or why and for which pair it is refused. The header has been judged, so that there is room
// for a transition for each pair: hence the `requires`.
pub fn table_of(rows: Rows, states: u8, actions: u8) -> Result<Transitions, TableFault>
    requires { (states ≤ max_states) × (actions ≤ max_actions) }
    ensures { Tabled (rows_of rows) (pairs states actions) result }
{
    let used = row_count(rows);
    let row_keys = rows.keys;
    let per_state = actions as usize;
    let mut keys = [0u32; MAX_TRANSITIONS];
    let mut count = 0;
    for i in 0..states as usize * per_state {
        let pair = FaultyPair {
            state: (i / per_state) as u8,
            action: (i % per_state) as u8,
        };
        let next = settled(met_by(&row_keys[..used], pair), pair)?;
        count = with_entry(&mut keys, i, transition_key(pair.state, pair.action, next));
    }
    Ok(Transitions { count, keys })
}

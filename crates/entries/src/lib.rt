// Entries in a lent row, a record each. How an entry lies in memory is known here and nowhere else.
#![tactic(auto)]

ghost use Rattle.std.specs.Prelude.{◌≡◌, [], ◌*◌, ◌<◌, min};
ghost use Rattle.edition.specs.Limits.{node_limit, entry_width};
ghost use Rattle.entries.specs.Row.{entries_in, entry_from, entry_at, put_entry, past_entries};

use edition::{Entry, Memory, Swap};

// How many whole entries a row holds.
pub fn entries_in(row: &[u64]) -> usize
    ensures { result ≡ entries_in row.now }
{
    row.len() / Memory::ENTRY
}

// An entry whose every number is 0.
#[tactic(auto, unfolding(crate::specs::Row::entry_from))]
fn no_entry() -> Entry
    ensures { result ≡ entry_from [] }
{
    let none = Swap {
        link: 0,
        cost: 0,
        lower: 0,
    };
    Entry {
        state: 0,
        sum: none,
        incr: none,
        max: none,
    }
}

// The entry of a node that the row holds one of.
pub fn entry_there(row: &[u64], x: usize) -> Entry
    requires { x < entries_in row.now }
    ensures { result ≡ entry_at row.now x }
{
    let at = x * Memory::ENTRY;
    let sum = Swap {
        link: row[at + 1],
        cost: row[at + 4],
        lower: row[at + 7],
    };
    let incr = Swap {
        link: row[at + 2],
        cost: row[at + 5],
        lower: row[at + 8],
    };
    let max = Swap {
        link: row[at + 3],
        cost: row[at + 6],
        lower: row[at + 9],
    };
    Entry {
        state: row[at],
        sum,
        incr,
        max,
    }
}

// The entry of node x; every number is 0 where the row holds none.
pub fn entry_at(row: &[u64], x: usize) -> Entry
    ensures { result ≡ entry_at row.now x }
{
    if row.len() / Memory::ENTRY <= x {
        return no_entry();
    }
    entry_there(row, x)
}

// Writes the entry of a node that the row holds one of.
#[tactic(auto, unfolding(crate::specs::Row::entry_row))]
pub fn put_there(row: &mut [u64], x: usize, e: Entry)
    requires { x < entries_in row.old }
    ensures { row.new ≡ put_entry row.old x e }
{
    let at = x * Memory::ENTRY;
    row[at] = e.state;
    row[at + 1] = e.sum.link;
    row[at + 2] = e.incr.link;
    row[at + 3] = e.max.link;
    row[at + 4] = e.sum.cost;
    row[at + 5] = e.incr.cost;
    row[at + 6] = e.max.cost;
    row[at + 7] = e.sum.lower;
    row[at + 8] = e.incr.lower;
    row[at + 9] = e.max.lower;
}

// Writes the entry of node x; nothing where the row holds none.
#[tactic(auto, using(crate::proofs::Numbers::put_nothing))]
pub fn put_entry(row: &mut [u64], x: usize, e: Entry)
    ensures { row.new ≡ put_entry row.old x e }
{
    if row.len() / Memory::ENTRY <= x {
        return;
    }
    put_there(row, x, e);
}

// What lies past the first n entries: that part of the lent row.
#[tactic(auto, unfolding(crate::specs::Row::past_entries, rows::specs::Records::past_records))]
pub fn past_entries(row: &[u64], n: usize) -> &[u64]
    ensures { result.now ≡ past_entries n row.now }
{
    let end = row.len();
    if end / Memory::ENTRY < n {
        return &row[end..];
    }
    &row[n * Memory::ENTRY..]
}

// How many numbers n entries take; no more than those of as many nodes as there can be.
pub fn numbers_of(n: usize) -> usize
    ensures { result ≡ min n node_limit * entry_width }
{
    n.min(Memory::NODES) * Memory::ENTRY
}

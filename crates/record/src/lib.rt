// Records as bytes.
#![tactic(auto)]

ghost use Rattle.std.specs.Prelude.{◌≡◌, ◌++◌, ◌+◌, ◌≤◌, leb, length};
ghost use Rattle.std.proofs.lemmas.List.Edits.{sets};
ghost use Rattle.edition.specs.Stored.{header_bytes, link_bytes, entry_bytes};
ghost use Rattle.numbers.specs.Bytes.{bytes_of};
ghost use Rattle.record.specs.Record.{header_record, link_record, entry_record, record_put};

use edition::{Edition, Entry, Search};
use network::Link;

// Puts four numbers of two bytes each.
fn put_four(bytes: &mut [u8], at: usize, a: u64, b: u64, c: u64, d: u64)
    requires { at + 8 ≤ length bytes.old }
    ensures { bytes.new ≡ sets bytes.old at (bytes_of 2 a ++ bytes_of 2 b ++ bytes_of 2 c ++ bytes_of 2 d) }
{
    numbers::put_number(bytes, at, 2, a);
    numbers::put_number(bytes, at + 2, 2, b);
    numbers::put_number(bytes, at + 4, 2, c);
    numbers::put_number(bytes, at + 6, 2, d);
}

// Puts a number of two bytes and two of one byte.
fn put_front(bytes: &mut [u8], at: usize, a: u64, b: u64, c: u64)
    requires { at + 4 ≤ length bytes.old }
    ensures { bytes.new ≡ sets bytes.old at (bytes_of 2 a ++ bytes_of 1 b ++ bytes_of 1 c) }
{
    numbers::put_number(bytes, at, 2, a);
    numbers::put_number(bytes, at + 2, 1, b);
    numbers::put_number(bytes, at + 3, 1, c);
}

// Puts a number of eight bytes and two of four.
fn put_costs(bytes: &mut [u8], at: usize, a: u64, b: u64, c: u64)
    requires { at + 16 ≤ length bytes.old }
    ensures { bytes.new ≡ sets bytes.old at (bytes_of 8 a ++ bytes_of 4 b ++ bytes_of 4 c) }
{
    numbers::put_number(bytes, at, 8, a);
    numbers::put_number(bytes, at + 8, 4, b);
    numbers::put_number(bytes, at + 12, 4, c);
}

// Whether a record of so many bytes fits from a place on.
fn has_room(bytes: &[u8], at: usize, size: usize) -> bool
    ensures { result ≡ leb (at + size) (length bytes.now) }
{
    size <= bytes.len() && at <= bytes.len() - size
}

// Puts the header's record from a place on. Where it does not fit nothing is written; the same holds for the others.
#[tactic(auto, using(crate::proofs::Putting::no_room, crate::proofs::Putting::put_is), unfolding(crate::specs::Record::header_record))]
pub fn put_header(bytes: &mut [u8], at: usize, n: u16, m: u16, search: Search)
    ensures { bytes.new ≡ record_put at header_bytes (header_record n m search) bytes.old }
{
    if !has_room(bytes, at, Edition::HEADER_BYTES) {
        return;
    }
    put_four(
        bytes,
        at,
        n as u64,
        m as u64,
        search.root as u64,
        search.depth as u64,
    );
}

// Puts a link's record.
#[tactic(auto, using(crate::proofs::Putting::no_room, crate::proofs::Putting::put_is), unfolding(crate::specs::Record::link_record))]
pub fn put_link(bytes: &mut [u8], at: usize, l: Link)
    ensures { bytes.new ≡ record_put at link_bytes (link_record l) bytes.old }
{
    if !has_room(bytes, at, Edition::LINK_BYTES) {
        return;
    }
    put_four(
        bytes,
        at,
        l.first as u64,
        l.second as u64,
        l.length as u64,
        l.mark as u64,
    );
}

// Puts the record of an entry, with the node's parent link.
pub fn put_entry(bytes: &mut [u8], at: usize, parent: u16, entry: Entry)
    ensures { bytes.new ≡ record_put at entry_bytes (entry_record parent entry) bytes.old }
{
    if !has_room(bytes, at, Edition::ENTRY_BYTES) {
        return;
    }
    let sum = entry.sum;
    let incr = entry.incr;
    let max = entry.max;
    put_front(bytes, at, parent as u64, entry.state, 0);
    put_four(bytes, at + 4, sum.link, incr.link, max.link, 0);
    put_costs(bytes, at + 12, sum.cost, incr.cost, max.cost);
}

// Printing of lent rows: numbers in one line, the record of a link, the lines of entries, and bytes.
ghost use Rattle.std.specs.Prelude.{◌≤◌, length};

use crate::limits::PARENTS;
use edition::Entry;

// Bytes a line.
const LINE: usize = 32;

// Prints a name and the numbers of a row in one line.
pub fn put_row(out: &mut [u8], at: usize, name: &[u8], row: &[u16]) -> usize
    ensures { result ≤ length out.new }
{
    let mut waits = output::put(out, at, name);
    for number in row {
        waits = output::put_field(out, waits, *number as u64);
    }
    output::put_newline(out, waits)
}

// Prints the record of link e, where there is one.
pub fn put_link(out: &mut [u8], at: usize, links: &[u16], e: u16) -> usize
    ensures { result ≤ length out.new }
{
    if out.len() < at {
        return output::flush(out, at);
    }
    if network::links_in(links) <= e as usize {
        return at;
    }
    let l = network::link_at(links, e as usize);
    let named = output::put(out, at, b"link");
    let first = output::put_field(out, named, l.first as u64);
    let second = output::put_field(out, first, l.second as u64);
    let length = output::put_field(out, second, l.length as u64);
    let mark = output::put_field(out, length, l.mark as u64);
    output::put_newline(out, mark)
}

// Prints three numbers, a space before each.
fn put_three(out: &mut [u8], at: usize, a: u64, b: u64, c: u64) -> usize
    ensures { result ≤ length out.new }
{
    let first = output::put_field(out, at, a);
    let second = output::put_field(out, first, b);
    output::put_field(out, second, c)
}

// Prints the entry line of node u: its state, the links, the costs and then the marks of the lower ends, for sum, incr and max.
pub fn put_entry(out: &mut [u8], at: usize, u: usize, entry: Entry) -> usize
    ensures { result ≤ length out.new }
{
    let sum = entry.sum;
    let incr = entry.incr;
    let max = entry.max;
    let named = output::put_number(out, at, u as u64);
    let told = output::put_field(out, named, entry.state);
    let linked = put_three(out, told, sum.link, incr.link, max.link);
    let priced = put_three(out, linked, sum.cost, incr.cost, max.cost);
    let marked = put_three(out, priced, sum.lower, incr.lower, max.lower);
    output::put_newline(out, marked)
}

// Prints the entry lines of the first n nodes; none where n is over the limit on parents.
pub fn put_entries(out: &mut [u8], at: usize, row: &[u64], n: usize) -> usize
    ensures { result ≤ length out.new }
{
    if out.len() < at {
        return output::flush(out, at);
    }
    if PARENTS < n {
        return at;
    }
    let mut waits = at;
    for u in 0..n {
        waits = put_entry(out, waits, u, entries::entry_at(row, u));
    }
    waits
}

// Prints a byte, and ends the line behind the last one of a line.
fn put_byte(out: &mut [u8], at: usize, byte: u8, i: usize) -> usize
    ensures { result ≤ length out.new }
{
    let put = output::put_hex(out, at, byte);
    if i % LINE == LINE - 1 {
        return output::put_newline(out, put);
    }
    put
}

// Prints the bytes of a row, so many a line.
pub fn put_bytes(out: &mut [u8], at: usize, file: &[u8]) -> usize
    ensures { result ≤ length out.new }
{
    if out.len() < at {
        return output::flush(out, at);
    }
    let mut waits = at;
    for (i, byte) in file.iter().enumerate() {
        waits = put_byte(out, waits, *byte, i);
    }
    if file.len() % LINE == 0 {
        return waits;
    }
    output::put_newline(out, waits)
}

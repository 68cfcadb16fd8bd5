// Ops 4 and 5: the change of one link, on a table worked out first and on a row that is none.
ghost use Rattle.std.specs.Prelude.{◌≤◌, length};

use edition::{Change, Refusal};
use network::Network;
use probe_rows::limits::{LINKS, ROOM};
use probe_rows::{printing, rest};

// Puts the record of link e back as it was before the change, where that was taken.
fn put_back(said: Result<(), Refusal>, links: &mut [u16], before: &[u16], e: u16) {
    if said.is_ok() {
        network::put_link(links, e as usize, network::link_at(before, e as usize));
    }
}

// Prints `links kept` or `links changed`.
fn put_kept(out: &mut [u8], at: usize, kept: bool) -> usize
    ensures { result ≤ length out.new }
{
    if kept {
        return output::put(out, at, b"links kept\n");
    }
    output::put(out, at, b"links changed\n")
}

// Prints `change ok` or `change refused N P`.
fn put_said(out: &mut [u8], at: usize, said: Result<(), Refusal>) -> usize
    ensures { result ≤ length out.new }
{
    let named = output::put(out, at, b"change ");
    match said {
        Ok(()) => output::put(out, named, b"ok\n"),
        Err(refusal) => output::put_refusal(out, named, refusal),
    }
}

// Prints what a change answered and left: the link's record, the first n entries, and whether all else is kept. All link
// numbers are then as they were before, where all but that record are kept.
fn put_left(
    said: Result<(), Refusal>,
    links: &mut [u16],
    before: &[u16],
    e: u16,
    row: &[u64],
    n: usize,
    out: &mut [u8],
    at: usize,
) -> usize
    ensures { result ≤ length out.new }
{
    let told = put_said(out, at, said);
    let linked = printing::put_link(out, told, links, e);
    let listed = printing::put_entries(out, linked, row, n);
    put_back(said, links, before, e);
    let kept = put_kept(out, listed, *links == *before);
    rest::put(
        out,
        kept,
        rest::is_kept_wide(entries::past_entries(row, n), 0),
    )
}

// Makes the change on the rows as they are, and prints what it answers and leaves. `links` are as the network has them.
fn change_row(
    net: Network,
    links: &mut [u16],
    wanted: Change,
    row: &mut [u64],
    out: &mut [u8],
    at: usize,
) -> usize
    ensures { result ≤ length out.new }
{
    let said = change::change(links, net.parents, net.search, row, wanted);
    let n = net.parents.len().min(entries::entries_in(row));
    put_left(said, links, net.links, wanted.link, row, n, out, at)
}

// The same on the table, which is worked out first; where that is refused, its refusal alone is printed.
fn change_table(
    net: Network,
    links: &mut [u16],
    wanted: Change,
    row: &mut [u64],
    out: &mut [u8],
    at: usize,
) -> usize
    ensures { result ≤ length out.new }
{
    match table::table(net, row) {
        Ok(()) => change_row(net, links, wanted, row, out, at),
        Err(refusal) => {
            let named = output::put(out, at, b"table ");
            output::put_refusal(out, named, refusal)
        }
    }
}

// Prints what the change answers and leaves, on a table worked out first (`filled`) or on a row that is none. The links are copied,
// and the change is made on the copy.
#[inline(never)]
pub fn change(
    net: Network,
    wanted: Change,
    filled: bool,
    room: usize,
    out: &mut [u8],
    at: usize,
) -> usize
    ensures { result ≤ length out.new }
{
    if LINKS < net.links.len() || ROOM < room {
        return output::flush(out, at);
    }
    let mut own = [0u16; LINKS];
    let mut row = [0u64; ROOM];
    let links = &mut own[..net.links.len()];
    let entries = &mut row[..room];
    links.copy_from_slice(net.links);
    rest::fill_wide(entries);
    if filled {
        return change_table(net, links, wanted, entries, out, at);
    }
    change_row(net, links, wanted, entries, out, at)
}

// Op 7: reading a file.
ghost use Rattle.std.specs.Prelude.{◌≤◌, length};
ghost use Rattle.probe_rows.specs.Limits.{most_links};

use archive::Header;
use edition::Refusal;
use probe_rows::limits::{LINKS, PARENTS, ROOM};
use probe_rows::{printing, rest};

// Prints the records of the first m links.
fn put_links(out: &mut [u8], at: usize, links: &[u16], m: usize) -> usize
    requires { (at ≤ length out.old) × (m ≤ most_links) }
    ensures { result ≤ length out.new }
{
    let mut waits = at;
    for e in 0..m {
        waits = printing::put_link(out, waits, links, e as u16);
    }
    waits
}

// Prints what the header of an accepted file says.
fn put_header(out: &mut [u8], at: usize, header: Header) -> usize
    ensures { result ≤ length out.new }
{
    let search = header.search;
    let named = output::put(out, at, b"ok");
    let nodes = output::put_field(out, named, header.nodes as u64);
    let links = output::put_field(out, nodes, header.links as u64);
    let root = output::put_field(out, links, search.root as u64);
    let depth = output::put_field(out, root, search.depth as u64);
    output::put_newline(out, depth)
}

// Whether what lies past the records of n nodes and m links is as it was filled, in all three rows.
fn is_kept(links: &[u16], parents: &[u16], row: &[u64], n: usize, m: usize) -> bool {
    rest::is_kept(network::past_links(links, m), 0)
        && rest::is_kept(parents, n)
        && rest::is_kept_wide(entries::past_entries(row, n), 0)
}

// Prints what an accepted file holds. More links or nodes than a case can lend room for are not listed.
fn put_accepted(
    header: Header,
    links: &[u16],
    parents: &[u16],
    row: &[u64],
    out: &mut [u8],
    at: usize,
) -> usize
    ensures { result ≤ length out.new }
{
    let n = header.nodes;
    let m = header.links;
    let told = put_header(out, at, header);
    if PARENTS < n || LINKS < m {
        return told;
    }
    let linked = put_links(out, told, links, m);
    let named = printing::put_row(out, linked, b"parents", rows::first(parents, n));
    let listed = printing::put_entries(out, named, row, n);
    rest::put(out, listed, is_kept(links, parents, row, n, m))
}

// Prints what the reader answered, and what it left in the rows.
fn put_read(
    said: Result<Header, Refusal>,
    links: &[u16],
    parents: &[u16],
    row: &[u64],
    out: &mut [u8],
    at: usize,
) -> usize
    ensures { result ≤ length out.new }
{
    let named = output::put(out, at, b"read ");
    match said {
        Ok(header) => put_accepted(header, links, parents, row, out, named),
        Err(refusal) => {
            let told = output::put_refusal(out, named, refusal);
            rest::put(out, told, is_kept(links, parents, row, 0, 0))
        }
    }
}

// Reads the file into room for a link numbers, b parents and c entry numbers, and prints what that answers and leaves.
#[inline(never)]
pub fn read(file: &[u8], a: u16, b: u16, c: u16, out: &mut [u8], at: usize) -> usize
    ensures { result ≤ length out.new }
{
    let links = a as usize;
    let parents = b as usize;
    let numbers = c as usize;
    if LINKS < links || PARENTS < parents || ROOM < numbers {
        return output::flush(out, at);
    }
    let mut first = [0u16; LINKS];
    let mut second = [0u16; PARENTS];
    let mut third = [0u64; ROOM];
    let links = &mut first[..links];
    let parents = &mut second[..parents];
    let row = &mut third[..numbers];
    rest::fill(links);
    rest::fill(parents);
    rest::fill_wide(row);
    let said = archive::read(file, links, parents, row);
    put_read(said, links, parents, row, out, at)
}

// SCOPE's listing of what a file holds, printed by way of a lent buffer.
#![tactic(auto)]

ghost use Rattle.std.specs.Prelude.{◌≡◌, ◌≤◌, length};

use archive::Header;
use edition::{Edition, Entry, Swap};
use map::Unprotected;

// The longest file that is listed: a longer one is refusal 20, place 0, before any other check.
pub const LISTED_BYTES: usize = Edition::FILE_BYTES;

// Prints a depth behind a space: `whole`, or a number.
pub fn put_depth(out: &mut [u8], at: usize, depth: u16) -> usize
    ensures { result ≤ length out.new }
{
    if depth == Edition::WHOLE {
        return output::put(out, at, b" whole");
    }
    output::put_field(out, at, depth as u64)
}

// Prints a name and a number.
pub fn put_named(out: &mut [u8], at: usize, name: &[u8], n: u64) -> usize
    ensures { result ≤ length out.new }
{
    let named = output::put(out, at, name);
    output::put_field(out, named, n)
}

// Prints the first line: how many nodes and links, the root and the depth.
fn put_header(out: &mut [u8], at: usize, header: Header) -> usize {
    let search = header.search;
    let nodes = put_named(out, at, b"nodes", header.nodes as u64);
    let links = put_named(out, nodes, b" links", header.links as u64);
    let root = put_named(out, links, b" root", search.root as u64);
    let named = output::put(out, root, b" depth");
    let depth = put_depth(out, named, search.depth);
    output::put_newline(out, depth)
}

// Prints a swap link and its cost.
fn put_swap(out: &mut [u8], at: usize, swap: Swap) -> usize {
    let linked = output::put_field(out, at, swap.link);
    output::put_field(out, linked, swap.cost)
}

// Prints the swap links for sum, incr and max with their costs.
fn put_swaps(out: &mut [u8], at: usize, entry: Entry) -> usize
    ensures { result ≤ length out.new }
{
    let named = output::put(out, at, b" swap");
    let sum = put_swap(out, named, entry.sum);
    let incr = put_swap(out, sum, entry.incr);
    let max = put_swap(out, incr, entry.max);
    output::put_newline(out, max)
}

// Prints the state of an entry and, where it is a swap, the links and costs.
fn put_state(out: &mut [u8], at: usize, entry: Entry) -> usize
    ensures { result ≤ length out.new }
{
    match entry.state {
        Edition::SWAP => put_swaps(out, at, entry),
        Edition::NONE => output::put(out, at, b" none\n"),
        _ => output::put(out, at, b" bridge\n"),
    }
}

// Prints the line of node x, which is not the root.
pub fn put_node(out: &mut [u8], at: usize, x: usize, parents: &[u16], entries: &[u64]) -> usize
    ensures { result ≤ length out.new }
{
    let named = output::put_number(out, at, x as u64);
    let linked = output::put_field(out, named, network::parent_of(parents, x) as u64);
    put_state(out, linked, entries::entry_at(entries, x))
}

// Prints the lines of all nodes but the root, in number order.
fn put_nodes(out: &mut [u8], at: usize, root: u16, parents: &[u16], entries: &[u64]) -> usize {
    let mut waits = at;
    for x in 0..parents.len() {
        if x != root as usize {
            waits = put_node(out, waits, x, parents, entries);
        }
    }
    waits
}

// Prints the last line: how many nodes are unprotected, and the lowest of them.
fn put_unprotected(out: &mut [u8], at: usize, told: Unprotected) -> usize
    ensures { result ≤ length out.new }
{
    let counted = put_named(out, at, b"unprotected", told.count as u64);
    let lowest = output::put(out, counted, b" lowest");
    if told.lowest == Edition::no_node() {
        return output::put(out, lowest, b" -\n");
    }
    let placed = output::put_field(out, lowest, told.lowest as u64);
    output::put_newline(out, placed)
}

// Prints the listing of an accepted file.
pub fn put_listing(
    header: Header,
    parents: &[u16],
    entries: &[u64],
    told: Unprotected,
    out: &mut [u8],
    at: usize,
) -> usize
    ensures { result ≤ length out.new }
{
    let search = header.search;
    let headed = put_header(out, at, header);
    let listed = put_nodes(out, headed, search.root, parents, entries);
    put_unprotected(out, listed, told)
}

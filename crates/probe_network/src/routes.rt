// Ops 101 to 103: the route of a node, the tree distance of two, and where their routes meet.
ghost use Rattle.std.specs.Prelude.{◌≤◌, length};

use edition::Refusal;
use network::Network;
use probe_rows::limits::ROOM;
use probe_rows::rest;

// How many nodes a route that begins a row has: up to the root, which ends it. All of the row where the root is not in it.
fn nodes_of(row: &[usize], root: u16) -> usize
    ensures { result ≤ length row.now }
{
    match row.iter().position(|u| *u == root as usize) {
        Some(last) => last + 1,
        None => row.len(),
    }
}

// Prints nodes in one line.
fn put_nodes(out: &mut [u8], at: usize, nodes: &[usize]) -> usize
    ensures { result ≤ length out.new }
{
    let mut waits = output::put(out, at, b"nodes");
    for u in nodes {
        waits = output::put_field(out, waits, *u as u64);
    }
    output::put_newline(out, waits)
}

// Prints a refusal behind what is named, and whether all of the lent room is kept.
fn put_refused(out: &mut [u8], at: usize, refusal: Refusal, row: &[usize]) -> usize
    ensures { result ≤ length out.new }
{
    let told = output::put_refusal(out, at, refusal);
    rest::put(out, told, rest::is_kept_nodes(row, 0))
}

// Prints the length of a route and its nodes, and whether the rest of the lent room is kept.
fn put_route(out: &mut [u8], at: usize, far: u64, root: u16, row: &[usize]) -> usize
    ensures { result ≤ length out.new }
{
    let n = nodes_of(row, root);
    let named = output::put(out, at, b"ok");
    let told = output::put_field(out, named, far);
    let ended = output::put_newline(out, told);
    let listed = put_nodes(out, ended, &row[..n]);
    rest::put(out, listed, rest::is_kept_nodes(row, n))
}

// Writes the route of node u into the first numbers of a row, and prints it, its length, and whether the rest of the lent room is kept.
#[inline(never)]
pub fn route(net: Network, u: u16, room: usize, out: &mut [u8], at: usize) -> usize
    ensures { result ≤ length out.new }
{
    if ROOM < room {
        return output::flush(out, at);
    }
    let mut nodes = [0usize; ROOM];
    let row = &mut nodes[..room];
    rest::fill_nodes(row);
    let said = tree::route(net, u as usize, row);
    let named = output::put(out, at, b"route ");
    match said {
        Ok(far) => put_route(out, named, far, net.search.root, row),
        Err(refusal) => put_refused(out, named, refusal, row),
    }
}

// Prints `ok` and a number, or a refusal.
fn put_answer(out: &mut [u8], at: usize, said: Result<u64, Refusal>) -> usize
    ensures { result ≤ length out.new }
{
    match said {
        Ok(number) => {
            let named = output::put(out, at, b"ok");
            let told = output::put_field(out, named, number);
            output::put_newline(out, told)
        }
        Err(refusal) => output::put_refusal(out, at, refusal),
    }
}

// Prints the tree distance of two nodes.
pub fn distance(net: Network, u: u16, z: u16, out: &mut [u8], at: usize) -> usize
    ensures { result ≤ length out.new }
{
    let named = output::put(out, at, b"distance ");
    let said = tree::tree_distance(net, u as usize, z as usize);
    put_answer(out, named, said)
}

// Prints where the routes of two nodes first meet.
pub fn meet(net: Network, u: u16, z: u16, out: &mut [u8], at: usize) -> usize
    ensures { result ≤ length out.new }
{
    let named = output::put(out, at, b"meet ");
    let said = tree::meet_of(net, u as usize, z as usize);
    put_answer(out, named, said)
}

// Op 9: the forwarder.
ghost use Rattle.std.specs.Prelude.{◌≤◌, length};

use edition::Refusal;
use forward::{Applies, Ask};
use network::Network;
use probe_rows::limits::ROUTE;
use probe_rows::{printing, rest};

// Prints the name of a lent row, and whether all of it from a place on is kept.
fn put_kept(out: &mut [u8], at: usize, name: &[u8], row: &[u16], from: usize) -> usize
    ensures { result ≤ length out.new }
{
    let named = output::put(out, at, name);
    if rest::is_kept(row, from) {
        return output::put(out, named, b" kept\n");
    }
    output::put(out, named, b" changed\n")
}

// Prints what the forwarder answered and the part that it handed back, and whether the rest of both rows is kept.
fn put_forward<'a>(
    said: Result<Applies, Refusal>,
    ordinary: &'a [u16],
    detour: &'a [u16],
    out: &mut [u8],
    at: usize,
) -> usize
    ensures { result ≤ length out.new }
{
    let part = forward::part(ordinary, detour, said);
    let n = part.len();
    let named = output::put(out, at, b"forward ");
    match said {
        Ok(Applies::Ordinary(_)) => {
            let told = output::put(out, named, b"ok ordinary\n");
            let listed = printing::put_row(out, told, b"route", part);
            let first = put_kept(out, listed, b"ordinary", ordinary, n);
            put_kept(out, first, b"detour", detour, 0)
        }
        Ok(Applies::Detour(_)) => {
            let told = output::put(out, named, b"ok detour\n");
            let listed = printing::put_row(out, told, b"route", part);
            let first = put_kept(out, listed, b"ordinary", ordinary, 0);
            put_kept(out, first, b"detour", detour, n)
        }
        Err(refusal) => {
            let told = output::put_refusal(out, named, refusal);
            let first = put_kept(out, told, b"ordinary", ordinary, 0);
            put_kept(out, first, b"detour", detour, 0)
        }
    }
}

// Prints which row applies and its nodes, with so many numbers lent for each of the two, and whether the rest of both is kept.
#[inline(never)]
pub fn forward(
    net: Network,
    ask: Ask,
    ordinary: u16,
    detour: u16,
    out: &mut [u8],
    at: usize,
) -> usize
    ensures { result ≤ length out.new }
{
    let first = ordinary as usize;
    let second = detour as usize;
    if ROUTE < first || ROUTE < second {
        return output::flush(out, at);
    }
    let mut one = [0u16; ROUTE];
    let mut other = [0u16; ROUTE];
    let ordinary = &mut one[..first];
    let detour = &mut other[..second];
    rest::fill(ordinary);
    rest::fill(detour);
    let said = forward::fill(net, ask, ordinary, detour);
    put_forward(said, ordinary, detour, out, at)
}

// Op 3: the unprotected map.
ghost use Rattle.std.specs.Prelude.{◌≤◌, length};

use edition::{Memory, Refusal};
use map::Unprotected;
use network::Network;
use probe_rows::limits::ROOM;
use probe_rows::rest;

// Prints the words of the map, a space before each, and ends the line.
fn put_words(out: &mut [u8], at: usize, row: &[u64]) -> usize
    ensures { result ≤ length out.new }
{
    let mut waits = at;
    for i in 0..Memory::WORDS {
        waits = output::put_field(out, waits, rows::wide_at(row, i));
    }
    output::put_newline(out, waits)
}

// Prints what is told of the map, and its words.
fn put_told(out: &mut [u8], at: usize, told: Unprotected, row: &[u64]) -> usize
    ensures { result ≤ length out.new }
{
    let named = output::put(out, at, b"ok");
    let counted = output::put_field(out, named, told.count as u64);
    let lowest = output::put_field(out, counted, told.lowest as u64);
    put_words(out, lowest, row)
}

// Prints what a call for the map answered, and what it left in the row.
fn put_map(said: Result<Unprotected, Refusal>, row: &[u64], out: &mut [u8], at: usize) -> usize
    ensures { result ≤ length out.new }
{
    let named = output::put(out, at, b"map ");
    match said {
        Ok(told) => {
            let listed = put_told(out, named, told, row);
            rest::put(out, listed, rest::is_kept_wide(row, Memory::WORDS))
        }
        Err(refusal) => {
            let listed = output::put_refusal(out, named, refusal);
            rest::put(out, listed, rest::is_kept_wide(row, 0))
        }
    }
}

// Works the map out into the first words of a row, and prints its answer and words, and whether the rest of the lent room is kept.
#[inline(never)]
pub fn map(net: Network, room: usize, out: &mut [u8], at: usize) -> usize
    ensures { result ≤ length out.new }
{
    if ROOM < room {
        return output::flush(out, at);
    }
    let mut words = [0u64; ROOM];
    let row = &mut words[..room];
    rest::fill_wide(row);
    let said = map::unprotected_map(net, row);
    put_map(said, row, out, at)
}

// Op 2: the table.
ghost use Rattle.std.specs.Prelude.{◌≤◌, length};

use edition::Refusal;
use network::Network;
use probe_rows::limits::ROOM;
use probe_rows::{printing, rest};

// Prints what a call for a table answered, and what it left in the row.
fn put_table(said: Result<(), Refusal>, n: usize, row: &[u64], out: &mut [u8], at: usize) -> usize
    ensures { result ≤ length out.new }
{
    let named = output::put(out, at, b"table ");
    match said {
        Ok(()) => {
            let told = output::put(out, named, b"ok\n");
            let listed = printing::put_entries(out, told, row, n);
            rest::put(
                out,
                listed,
                rest::is_kept_wide(entries::past_entries(row, n), 0),
            )
        }
        Err(refusal) => {
            let told = output::put_refusal(out, named, refusal);
            rest::put(out, told, rest::is_kept_wide(row, 0))
        }
    }
}

// Works the table out into the first numbers of a row, and prints its answer and entries, and whether the rest of the lent room is
// kept.
#[inline(never)]
pub fn table(net: Network, room: usize, out: &mut [u8], at: usize) -> usize
    ensures { result ≤ length out.new }
{
    if ROOM < room {
        return output::flush(out, at);
    }
    let mut entries = [0u64; ROOM];
    let row = &mut entries[..room];
    rest::fill_wide(row);
    let said = table::table(net, row);
    put_table(said, net.parents.len(), row, out, at)
}

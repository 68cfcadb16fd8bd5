// Op 6: the file.
ghost use Rattle.std.specs.Prelude.{◌≤◌, length};

use edition::Refusal;
use network::Network;
use probe_rows::limits::ROOM;
use probe_rows::{printing, rest};

// Prints the length of a file that was written, and its bytes.
fn put_file(out: &mut [u8], at: usize, file: &[u8], size: usize) -> usize
    ensures { result ≤ length out.new }
{
    let named = output::put(out, at, b"ok");
    let told = output::put_field(out, named, size as u64);
    let ended = output::put_newline(out, told);
    if file.len() < size {
        return ended;
    }
    printing::put_bytes(out, ended, &file[..size])
}

// Prints what the writer answered, and what it left in the row.
fn put_written(said: Result<usize, Refusal>, file: &[u8], out: &mut [u8], at: usize) -> usize
    ensures { result ≤ length out.new }
{
    let named = output::put(out, at, b"write ");
    match said {
        Ok(size) => {
            let listed = put_file(out, named, file, size);
            rest::put(out, listed, rest::is_kept_bytes(file, size))
        }
        Err(refusal) => {
            let listed = output::put_refusal(out, named, refusal);
            rest::put(out, listed, rest::is_kept_bytes(file, 0))
        }
    }
}

// Writes the file into the first bytes of a row, and prints the writer's answer and the bytes of the file, and whether the rest of the
// lent room is kept.
#[inline(never)]
pub fn write(net: Network, room: usize, out: &mut [u8], at: usize) -> usize
    ensures { result ≤ length out.new }
{
    if ROOM < room {
        return output::flush(out, at);
    }
    let mut bytes = [0u8; ROOM];
    let file = &mut bytes[..room];
    rest::fill_bytes(file);
    let said = archive::write(net.links, net.parents, net.search.aim(), file);
    put_written(said, file, out, at)
}

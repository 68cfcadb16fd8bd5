// Lists the table that a file holds. Reads the stored form from standard input and prints SCOPE's listing, or
// `refused N P` where the file is not accepted. A file over the longest that is listed is refusal 20 at place 0, before any
// other check.
#![tactic(auto)]

ghost use Rattle.std.specs.Prelude.{Ok, ◌≡◌, ◌≤◌, ℕ, length};

use archive::Header;
use edition::{Memory, Refusal, Why};
use network::Network;

// Bytes of the buffer that what is printed waits in: it holds the first line, the longest line of every node and the last, so
// that all is printed at once and it is seen whether it was.
const OUT: usize = 80 * (2 + Memory::NODES);

// Prints what an accepted file holds, and its unprotected map.
fn put_accepted(
    header: Header,
    links: &[u16],
    parents: &[u16],
    entries: &[u64],
    out: &mut [u8],
) -> Result<usize, Refusal>
    ensures { (size : ℕ) → result ≡ Ok size → size ≤ length out.new }
{
    let mut words = [0u64; Memory::WORDS];
    let search = header.search;
    let told = map::unprotected_map(
        Network {
            links,
            parents,
            search,
        },
        &mut words,
    )?;
    Ok(listing::put_listing(header, parents, entries, told, out, 0))
}

// Prints what a file holds.
fn put_file(file: &[u8], out: &mut [u8]) -> Result<usize, Refusal>
    ensures { (size : ℕ) → result ≡ Ok size → size ≤ length out.new }
{
    let mut links = [0u16; Memory::LINK_ROW];
    let mut parents = [0u16; Memory::NODES];
    let mut entries = [0u64; Memory::ENTRY_ROW];
    let header = archive::read(file, &mut links, &mut parents, &mut entries)?;
    let held = network::first_links(&links, header.links);
    let named = rows::first(&parents, header.nodes);
    put_accepted(header, held, named, &entries, out)
}

// Prints the listing of a file, or 20 where it has more bytes than are listed.
fn put_within(file: &[u8], out: &mut [u8]) -> Result<usize, Refusal>
    ensures { (size : ℕ) → result ≡ Ok size → size ≤ length out.new }
{
    rows::refuse_if(listing::LISTED_BYTES < file.len(), Why::BadLength, 0)?;
    put_file(file, out)
}

// Prints the listing of a file, or why it is refused.
fn list(file: &[u8], out: &mut [u8]) -> usize
    ensures { result ≤ length out.new }
{
    match put_within(file, out) {
        Ok(size) => size,
        Err(refusal) => output::put_refusal(out, 0, refusal),
    }
}

// One byte more than is listed is read, by which a longer file is seen. Where the listing cannot all be written, that is said on
// standard error.
fn main() {
    let mut row = [0u8; listing::LISTED_BYTES + 1];
    let mut out = [0u8; OUT];
    let size = io::read_full(output::STDIN, &mut row);
    let waits = list(&row[..size], &mut out);
    if !io::write_all(output::STDOUT, &out[..waits]) {
        io::write_all(
            output::STDERR,
            b"standard output: the listing could not be written\n",
        );
    }
}

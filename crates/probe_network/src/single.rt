// Ops 104 and 105: the entry of one node, and whether a node has one.
ghost use Rattle.std.specs.Prelude.{◌≤◌, length};

use network::Network;
use probe_rows::printing;

// Prints the entry of node x.
pub fn entry(net: Network, x: u16, out: &mut [u8], at: usize) -> usize
    ensures { result ≤ length out.new }
{
    let named = output::put(out, at, b"entry ");
    match table::entry_of(net, x as usize) {
        Ok(entry) => {
            let told = output::put(out, named, b"ok\n");
            printing::put_entry(out, told, x as usize, entry)
        }
        Err(refusal) => output::put_refusal(out, named, refusal),
    }
}

// Prints whether node x has an entry.
pub fn node(net: Network, x: u16, out: &mut [u8], at: usize) -> usize
    ensures { result ≤ length out.new }
{
    let named = output::put(out, at, b"node ");
    match table::check_entry(net, x as usize) {
        Ok(()) => output::put(out, named, b"ok\n"),
        Err(refusal) => output::put_refusal(out, named, refusal),
    }
}

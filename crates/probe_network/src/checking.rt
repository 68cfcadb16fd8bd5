// Op 1: the check of a network and the depth.
ghost use Rattle.std.specs.Prelude.{◌≤◌, length};

use network::Network;

// Prints `check ok` or `check refused N P`.
pub fn check(net: Network, out: &mut [u8], at: usize) -> usize
    ensures { result ≤ length out.new }
{
    let named = output::put(out, at, b"check ");
    match sound::check_network(net) {
        Ok(_) => output::put(out, named, b"ok\n"),
        Err(refusal) => output::put_refusal(out, named, refusal),
    }
}

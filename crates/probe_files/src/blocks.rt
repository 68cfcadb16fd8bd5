// Op 8: the block reader.
ghost use Rattle.std.specs.Prelude.{◌≤◌, length};

use probe_rows::printing;

// Prints what the block reader answers: the payload's bytes, or the refusal.
pub fn payload(kind: u16, number: u16, used: u16, block: &[u8], out: &mut [u8], at: usize) -> usize
    ensures { result ≤ length out.new }
{
    let named = output::put(out, at, b"block ");
    match block::check_block(kind, number, used, block) {
        Ok(()) => {
            let told = output::put(out, named, b"ok\n");
            printing::put_bytes(out, told, block::payload(kind, number, used, block))
        }
        Err(refusal) => output::put_refusal(out, named, refusal),
    }
}

// Numbers in bytes, big-endian: total reads and writes.
#![tactic(auto)]

ghost use Rattle.std.specs.Prelude.{◌≡◌, ◌+◌, get_or, set};
ghost use Rattle.std.proofs.lemmas.List.Edits.{sets};
ghost use Rattle.numbers.specs.Bytes.{bytes_of, number_in};

// The byte at place i; 0 past the end.
fn byte_at(bytes: &[u8], i: usize) -> u8
    ensures { result ≡ get_or bytes.now i 0 }
{
    bytes.get(i).copied().unwrap_or(0)
}

// The number in the two bytes from a place on; bytes past the end count as 0.
#[tactic(auto, using(crate::proofs::Getting::number_two, crate::proofs::Getting::two_past))]
pub fn two_at(bytes: &[u8], at: usize) -> u16
    ensures { result ≡ number_in bytes.now at 2 }
{
    if bytes.len() <= at {
        return 0;
    }
    byte_at(bytes, at) as u16 * 256 + byte_at(bytes, at + 1) as u16
}

// Puts byte j of those from a place on; nothing past the end.
fn put_byte(bytes: &mut [u8], at: usize, j: usize, v: u8)
    ensures { bytes.new ≡ set bytes.old (at + j) v }
{
    if at < bytes.len() && j < bytes.len() - at {
        bytes[at + j] = v;
    }
}

// Puts the number v in k bytes from a place on, its lowest byte last; bytes past the end are left out.
pub fn put_number(bytes: &mut [u8], at: usize, k: usize, v: u64)
    ensures { bytes.new ≡ sets bytes.old at (bytes_of k v) }
{
    let mut rest = v;
    for j in (0..k).rev() {
        put_byte(bytes, at, j, (rest % 256) as u8);
        rest /= 256;
    }
}

// Printing by way of a lent buffer, whose first `at` bytes wait. A function that prints takes the buffer and `at` and answers
// the next `at`; what does not fit has what waits written out first, so no caller has to know how much room is left. No
// contract can speak of what was written out; these say what waits.
#![tactic(auto)]

ghost use Rattle.std.specs.Prelude.{◌≡◌, [], ◌∷◌, ◌≤◌, ◌<◌, length};
ghost use Rattle.io.specs.Digits.{hex_digit_ascii};
ghost use Rattle.output.specs.Text.{place_for, waits, Holds, hex_of, Numbered};

use edition::Refusal;

// The numbers of standard input, output and error.
pub const STDIN: i32 = 0;

pub const STDOUT: i32 = 1;

pub const STDERR: i32 = 2;

// Writes out what waits, so that nothing waits then. Whether all of it was written is not told.
pub fn flush(out: &[u8], at: usize) -> usize
    ensures { result ≡ 0 }
{
    if at <= out.len() {
        io::write_all(STDOUT, &out[0..at]);
    }
    0
}

// A place with room for n bytes: behind what waits, or 0, once that is written out.
#[tactic(auto, using(crate::proofs::Placing::place_behind, crate::proofs::Placing::place_begins))]
fn room_for(out: &[u8], at: usize, n: usize) -> usize
    ensures low { result ≤ length out.now }
    ensures place { result ≡ place_for (length out.now) at n }
{
    if at <= out.len() && n <= out.len() - at {
        return at;
    }
    flush(out, at)
}

// Prints a text of any length. One that the whole buffer cannot hold is written out at once.
pub fn put(out: &mut [u8], at: usize, text: &[u8]) -> usize
    ensures { Holds out.new result (waits out.old at text.now) }
{
    let place = room_for(out, at, text.len());
    if text.len() <= out.len() - place {
        out[place..place + text.len()].copy_from_slice(text);
        return place + text.len();
    }
    io::write_all(STDOUT, text);
    0
}

// Prints one byte.
pub fn put_byte(out: &mut [u8], at: usize, byte: u8) -> usize
    ensures { Holds out.new result (waits out.old at (byte ∷ [])) }
{
    let text = [byte];
    put(out, at, &text)
}

// Prints a space.
pub fn put_space(out: &mut [u8], at: usize) -> usize
    ensures { Holds out.new result (waits out.old at (32 ∷ [])) }
{
    put_byte(out, at, b' ')
}

// Ends a line.
pub fn put_newline(out: &mut [u8], at: usize) -> usize
    ensures { Holds out.new result (waits out.old at (10 ∷ [])) }
{
    put_byte(out, at, b'\n')
}

// Prints a number in decimal.
pub fn put_number(out: &mut [u8], at: usize, n: u64) -> usize
    ensures { Numbered out.old at n out.new result }
{
    let mut digits = [0u8; 20];
    let k = io::decimal(n, &mut digits);
    put(out, at, &digits[..k])
}

// Prints a space and a number: one more field of a line.
pub fn put_field(out: &mut [u8], at: usize, n: u64) -> usize
    ensures { result ≤ length out.new }
{
    let spaced = put_space(out, at);
    put_number(out, spaced, n)
}

// The digit of a number below 16, in lower case.
fn digit(n: u8) -> u8
    requires { n < 16 }
    ensures { result ≡ hex_digit_ascii n }
{
    if n < 10 { 48 + n } else { 87 + n }
}

// Prints a byte as two digits in hexadecimal, in lower case.
#[tactic(auto, unfolding(crate::specs::Text::hex_of))]
pub fn put_hex(out: &mut [u8], at: usize, byte: u8) -> usize
    ensures { Holds out.new result (waits out.old at (hex_of byte)) }
{
    let text = [digit(byte / 16), digit(byte % 16)];
    put(out, at, &text)
}

// Prints `refused N P` and ends the line.
pub fn put_refusal(out: &mut [u8], at: usize, refusal: Refusal) -> usize
    ensures { result ≤ length out.new }
{
    let why = refusal.why;
    let named = put(out, at, b"refused");
    let numbered = put_field(out, named, edition::number(why) as u64);
    let placed = put_field(out, numbered, refusal.place as u64);
    put_newline(out, placed)
}

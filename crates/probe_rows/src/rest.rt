// Lent room: what it is filled with beforehand, and whether it has stayed so.
ghost use Rattle.std.specs.Prelude.{◌≡◌, length};
ghost use Rattle.output.specs.Text.{waits, Holds};
ghost use Rattle.rows.specs.Count.{row_with};
ghost use Rattle.probe_rows.specs.Rest.{fill_mark, byte_mark, is_kept, rest_text};

// The number that rows are filled with, and the byte that a file is filled with.
const NUMBER: u16 = 7;

const WIDE: u64 = 7;

const NODE: usize = 7;

const BYTE: u8 = 165;

// Fills a row of links or parents.
pub fn fill(row: &mut [u16])
    ensures { row.new ≡ row_with (λ i. fill_mark) (length row.old) row.old }
{
    row.fill(NUMBER);
}

// Fills a row of entries or words.
pub fn fill_wide(row: &mut [u64])
    ensures { row.new ≡ row_with (λ i. fill_mark) (length row.old) row.old }
{
    row.fill(WIDE);
}

// Fills a row of nodes.
pub fn fill_nodes(row: &mut [usize])
    ensures { row.new ≡ row_with (λ i. fill_mark) (length row.old) row.old }
{
    row.fill(NODE);
}

// Fills a row of bytes.
pub fn fill_bytes(row: &mut [u8])
    ensures { row.new ≡ row_with (λ i. byte_mark) (length row.old) row.old }
{
    row.fill(BYTE);
}

// Whether all of a row of links or parents from a place on is as it was filled.
#[tactic(auto, using(crate::proofs::Keeping::keeps))]
pub fn is_kept(row: &[u16], from: usize) -> bool
    ensures { result ≡ is_kept fill_mark row.now from }
{
    for i in from..row.len() {
        if row[i] != NUMBER {
            return false;
        }
    }
    true
}

// Whether all of a row of entries or words from a place on is as it was filled.
#[tactic(auto, using(crate::proofs::Keeping::keeps))]
pub fn is_kept_wide(row: &[u64], from: usize) -> bool
    ensures { result ≡ is_kept fill_mark row.now from }
{
    for i in from..row.len() {
        if row[i] != WIDE {
            return false;
        }
    }
    true
}

// Whether all of a row of nodes from a place on is as it was filled.
#[tactic(auto, using(crate::proofs::Keeping::keeps))]
pub fn is_kept_nodes(row: &[usize], from: usize) -> bool
    ensures { result ≡ is_kept fill_mark row.now from }
{
    for i in from..row.len() {
        if row[i] != NODE {
            return false;
        }
    }
    true
}

// Whether all bytes from a place on are as they were filled.
#[tactic(auto, using(crate::proofs::Keeping::keeps))]
pub fn is_kept_bytes(row: &[u8], from: usize) -> bool
    ensures { result ≡ is_kept byte_mark row.now from }
{
    for i in from..row.len() {
        if row[i] != BYTE {
            return false;
        }
    }
    true
}

// Prints `rest kept` or `rest changed`.
#[tactic(auto, unfolding(crate::specs::Rest::rest_text))]
pub fn put(out: &mut [u8], at: usize, kept: bool) -> usize
    ensures { Holds out.new result (waits out.old at (rest_text kept)) }
{
    if kept {
        return output::put(out, at, b"rest kept\n");
    }
    output::put(out, at, b"rest changed\n")
}

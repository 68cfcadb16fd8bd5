// A block of the stored form: what one is refused for, its payload, and how one is made.
#![tactic(auto)]

ghost use Rattle.std.specs.Prelude.{◌≡◌, true, false, MatchOption, ◌+◌, ◌*◌, ◌<◌, ◌≤◌, length};
ghost use Rattle.edition.specs.Stored.{block_bytes, front_bytes, entry_bytes};
ghost use Rattle.rows.specs.Count.{some_to};
ghost use Rattle.block.specs.Bytes.{dirty};
ghost use Rattle.block.specs.Block.{capacity, record_bytes, check_of, dirty_entry, bad_filler, no_such_block, bad_block, block_verdict};
ghost use Rattle.block.specs.Block.{payload, payload_place, sealed};
ghost use Rattle.block.specs.Work.{block_words, word_of, folded_sum, bad_front, with_front, kind_byte};

use edition::{Edition, Refusal, Why};

// Where the numbers of a block's front stand: block number, records used, check.
const NUMBER_AT: usize = 2;

const USED_AT: usize = 4;

const CHECK_AT: usize = 6;

// The 16-bit words of a block, and the one that holds the check.
const WORDS: usize = Edition::BLOCK_BYTES / 2;

const CHECK_WORD: usize = 3;

// Where the zeros inside a table's entry stand.
const FIRST_ZERO: usize = 3;

const LAST_ZEROS: usize = 10;

// The sum of words, with what is carried out of 16 bits added in again.
#[tactic(auto, unfolding(crate::specs::Work::folded_sum))]
fn folded(sum: u32) -> u16
    ensures { result ≡ folded_sum sum }
{
    if sum == 0 {
        return 0;
    }
    let most = Edition::WORD_MOST as u32;
    ((sum - 1) % most + 1) as u16
}

// Word k of a block; the word of the check counts as 0.
#[tactic(auto, unfolding(crate::specs::Work::word_of))]
fn word_at(b: &[u8], k: usize) -> u16
    requires { k < block_words }
    ensures { result ≡ word_of b.now k }
{
    if k == CHECK_WORD {
        return 0;
    }
    numbers::two_at(b, k + k)
}

// The check of a block, whatever stands in its place.
fn check_of(b: &[u8]) -> u16
    requires { length b.now ≡ block_bytes }
    ensures { result ≡ check_of b.now }
{
    let mut sum = 0;
    for k in 0..WORDS {
        sum += word_at(b, k) as u32;
    }
    Edition::WORD_MOST - folded(sum)
}

// What a block holds.
#[derive(Clone, Copy)]
enum Kind {
    Header,
    Links,
    Table,
}

impl Kind {
    // How many records a block of this kind holds.
    #[tactic(auto, unfolding(crate::specs::Block::capacity))]
    fn capacity(self) -> usize
        ensures { result ≡ capacity (kind_byte self) }
    {
        match self {
            Kind::Header => Edition::HEADERS_A_BLOCK,
            Kind::Links => Edition::LINKS_A_BLOCK,
            Kind::Table => Edition::ENTRIES_A_BLOCK,
        }
    }

    // How many bytes a record of this kind takes.
    #[tactic(auto, unfolding(crate::specs::Block::record_bytes))]
    fn record_bytes(self) -> usize
        ensures { result ≡ record_bytes (kind_byte self) }
    {
        match self {
            Kind::Header => Edition::HEADER_BYTES,
            Kind::Links => Edition::LINK_BYTES,
            Kind::Table => Edition::ENTRY_BYTES,
        }
    }
}

// The kind that a number stands for; none where it is none of the three.
#[tactic(auto, unfolding(crate::specs::Block::capacity))]
fn kind_of(number: u16) -> Option<Kind>
    ensures { MatchOption result (capacity number ≡ 0) (λ k. number ≡ kind_byte k) }
{
    if number == Edition::HEADER_KIND as u16 {
        Some(Kind::Header)
    } else if number == Edition::LINKS_KIND as u16 {
        Some(Kind::Links)
    } else if number == Edition::TABLE_KIND as u16 {
        Some(Kind::Table)
    } else {
        None
    }
}

// The kind of a block that is asked for by its number and used count; none where no block has them.
#[tactic(auto, unfolding(crate::specs::Block::no_such_block))]
fn block_kind(number: u16, used: u16) -> Option<Kind>
    ensures { MatchOption result (no_such_block number used ≡ true) (λ k. (number ≡ kind_byte k) × (no_such_block number used ≡ false)) }
{
    let kind = kind_of(number)?;
    if used == 0 || kind.capacity() < used as usize {
        return None;
    }
    Some(kind)
}

// Whether one of the bytes from a place on is not 0.
#[tactic(auto, unfolding(crate::specs::Bytes::dirty))]
fn is_dirty(b: &[u8], from: usize, count: usize) -> bool
    requires { from + count ≤ length b.now }
    ensures { result ≡ dirty b.now from count }
{
    for byte in &b[from..from + count] {
        if *byte != 0 {
            return true;
        }
    }
    false
}

// Whether a byte inside entry r that should be 0 is not.
#[tactic(auto, unfolding(crate::specs::Block::dirty_entry))]
fn is_dirty_entry(b: &[u8], r: usize) -> bool
    requires { front_bytes + (r + 1) * entry_bytes ≤ length b.now }
    ensures { result ≡ dirty_entry b.now r }
{
    let at = Edition::FRONT_BYTES + r * Edition::ENTRY_BYTES;
    is_dirty(b, at + FIRST_ZERO, 1) || is_dirty(b, at + LAST_ZEROS, 2)
}

// Whether one of the first entries has such a byte.
fn has_dirty_entry(b: &[u8], used: usize) -> bool
    requires { front_bytes + used * entry_bytes ≤ length b.now }
    ensures { result ≡ some_to (dirty_entry b.now) used }
{
    (0..used).any(|r| is_dirty_entry(b, r))
}

// Whether filler is not 0: the unused payload, or the zeros inside a table's entries.
#[tactic(auto, using(crate::proofs::Sizes::size_fits, crate::proofs::Sizes::heard_entries), unfolding(crate::specs::Block::bad_filler))]
fn bad_filler(kind: Kind, used: u16, b: &[u8]) -> bool
    requires { (length b.now ≡ block_bytes) × (no_such_block (kind_byte kind) used ≡ false) }
    ensures { result ≡ bad_filler (kind_byte kind) used b.now }
{
    let size = used as usize * kind.record_bytes();
    let unused = Edition::PAYLOAD_BYTES - size;
    is_dirty(b, Edition::FRONT_BYTES + size, unused)
        || matches!(kind, Kind::Table) && has_dirty_entry(b, used as usize)
}

// Whether kind, edition, number or used count is not the one asked.
fn bad_front(kind: u16, number: u16, used: u16, b: &[u8]) -> bool
    requires { length b.now ≡ block_bytes }
    ensures { result ≡ bad_front kind number used b.now }
{
    b[0] as u16 != kind
        || b[1] != Edition::NUMBER
        || numbers::two_at(b, NUMBER_AT) != number
        || numbers::two_at(b, USED_AT) != used
}

// Whether a block of the right length is refused by 22.
#[tactic(auto, unfolding(crate::specs::Block::bad_block, crate::specs::Work::bad_front))]
fn bad_block(kind: u16, number: u16, used: u16, b: &[u8]) -> bool
    requires { length b.now ≡ block_bytes }
    ensures { result ≡ bad_block kind number used b.now }
{
    let Some(known) = block_kind(kind, used) else {
        return true;
    };
    bad_front(kind, number, used, b) || bad_filler(known, used, b)
}

// Whether lent bytes are the block asked for by kind, number and used count, or the first reason why not: 20, 21, 22.
#[tactic(auto, unfolding(crate::specs::Block::block_verdict, crate::specs::Block::bad_check, rows::specs::First::firstly, rows::specs::First::refuse_if))]
pub fn check_block(kind: u16, number: u16, used: u16, b: &[u8]) -> Result<(), Refusal>
    ensures { result ≡ block_verdict kind number used b.now }
{
    if b.len() != Edition::BLOCK_BYTES {
        return Err(Refusal {
            why: Why::BadLength,
            place: 0,
        });
    }
    if numbers::two_at(b, CHECK_AT) != check_of(b) {
        return Err(Refusal {
            why: Why::BadCheck,
            place: number as usize,
        });
    }
    rows::refuse_if(
        bad_block(kind, number, used, b),
        Why::BadBlock,
        number as usize,
    )
}

// The payload of a sound block, as that part of the lent bytes and no copy; an empty part otherwise.
pub fn payload(kind: u16, number: u16, used: u16, b: &[u8]) -> &[u8]
    ensures part { result.now ≡ payload kind number used b.now }
    // The part begins at that place of the same lent bytes: `.ptr .0` is whose bytes they are, `.ptr .1` where in them.
    ensures place { (result.ref_ptr.0 ≡ b.entry.ref_ptr.0)
        × (result.ref_ptr.1 ≡ payload_place kind number used b.now + b.entry.ref_ptr.1) }
{
    match check_block(kind, number, used, b) {
        Ok(()) => &b[Edition::FRONT_BYTES..Edition::BLOCK_BYTES],
        Err(_) => &b[0..0],
    }
}

// Writes bytes 0 to 5.
#[tactic(auto, unfolding(crate::specs::Work::with_front, crate::specs::Block::front, numbers::specs::Bytes::bytes_of))]
fn put_front(kind: u8, number: u16, used: u16, b: &mut [u8])
    requires { length b.old ≡ block_bytes }
    ensures { b.new ≡ with_front kind number used b.old }
{
    b[0] = kind;
    b[1] = Edition::NUMBER;
    numbers::put_number(b, NUMBER_AT, 2, number as u64);
    numbers::put_number(b, USED_AT, 2, used as u64);
}

// Makes a block of 512 lent bytes that hold the records from byte 8 on: writes the front, zeros behind the records, and the
// check. Writes nothing where the bytes are not 512, or no block has this kind and used count.
#[tactic(auto, using(crate::proofs::Sizes::size_fits, crate::proofs::Sealing::front_length), unfolding(crate::specs::Block::sealed))]
pub fn seal(kind: u8, number: u16, used: u16, b: &mut [u8])
    ensures { b.new ≡ sealed kind number used b.old }
{
    if b.len() != Edition::BLOCK_BYTES {
        return;
    }
    let Some(known) = block_kind(kind as u16, used) else {
        return;
    };
    let size = used as usize * known.record_bytes();
    put_front(kind, number, used, b);
    b[Edition::FRONT_BYTES + size..].fill(0);
    let check = check_of(b);
    numbers::put_number(b, CHECK_AT, 2, check as u64);
}

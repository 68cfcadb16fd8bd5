// What is read: the heads of cases, and the words and bytes behind them.
ghost use Rattle.std.specs.Prelude.{◌≡◌, ◌+◌, ◌*◌, drop};
ghost use Rattle.probe.specs.Input.{head_in, HeadRead, row_read};
ghost use Rattle.probe.specs.Limits.{most_rest, over_routes, over_room, over_rows, is_over};

use crate::limits::HEAD;
use crate::ops;
use edition::Search;
use probe_rows::limits::{BYTES, LINKS, PARENTS, ROOM, ROUTE};

// The head of a case: its op, how many parents and how much else follow, how much room is lent, and the numbers that the
// caller states. The two words of the room are for op 9 the lengths of two rows.
#[derive(Clone, Copy)]
pub struct Head {
    pub op: u16,
    pub parents: usize,
    pub rest: usize,
    pub room: usize,
    pub ordinary: u16,
    pub detour: u16,
    pub search: Search,
    pub a: u16,
    pub b: u16,
    pub c: u16,
}

// Two words as one number, the high word first.
fn long(high: u16, low: u16) -> usize
    ensures { result ≡ high * 65536 + low }
{
    high as usize * 65536 + low as usize
}

// The head that these bytes are.
#[tactic(auto, unfolding(crate::specs::Input::head_in, crate::specs::Input::long_in))]
fn head_of(raw: &[u8]) -> Head
    ensures { result ≡ head_in raw.now }
{
    let search = Search {
        root: test_words::word(raw, 6),
        depth: test_words::word(raw, 7),
        rule: test_words::word(raw, 11),
    };
    let high = test_words::word(raw, 4);
    let low = test_words::word(raw, 5);
    Head {
        op: test_words::word(raw, 0),
        parents: test_words::word(raw, 1) as usize,
        rest: long(test_words::word(raw, 2), test_words::word(raw, 3)),
        room: long(high, low),
        ordinary: high,
        detour: low,
        search,
        a: test_words::word(raw, 8),
        b: test_words::word(raw, 9),
        c: test_words::word(raw, 10),
    }
}

// Reads n bytes to the beginning of the row. False where the input ends first or the row is too short.
fn read_bytes(raw: &mut [u8], n: usize) -> bool {
    n <= raw.len() && io::read_full(output::STDIN, &mut raw[..n]) == n
}

// Reads the head of the next case, by way of raw bytes. None at the end of the input.
#[tactic(auto, using(crate::specs::Input::is_head, crate::specs::Input::is_end))]
pub fn read_head(raw: &mut [u8]) -> Option<Head>
    ensures { HeadRead raw.new result }
{
    if !read_bytes(raw, 2 * HEAD) {
        return None;
    }
    Some(head_of(raw))
}

// Whether one of the three rows that op 7 lends is over its limit.
#[tactic(auto, unfolding(crate::specs::Limits::over_rows))]
fn is_over_rows(head: Head) -> bool
    ensures { result ≡ over_rows head }
{
    LINKS < head.a as usize || PARENTS < head.b as usize || ROOM < head.c as usize
}

// Whether one of the two rows that op 9 lends is over its limit.
#[tactic(auto, unfolding(crate::specs::Limits::over_routes))]
fn is_over_routes(head: Head) -> bool
    ensures { result ≡ over_routes head }
{
    ROUTE < head.ordinary as usize || ROUTE < head.detour as usize
}

// Whether what words 4 and 5 lend is over its limit: the two rows of op 9, the room of any other.
#[tactic(auto, unfolding(crate::specs::Limits::over_room))]
fn is_over_room(head: Head) -> bool
    ensures { result ≡ over_room head }
{
    if head.op == ops::FORWARD {
        return is_over_routes(head);
    }
    ROOM < head.room
}

// The most that may follow the parents.
#[tactic(auto, unfolding(crate::specs::Limits::most_rest))]
fn most_rest(op: u16) -> usize
    ensures { result ≡ most_rest op }
{
    if ops::takes_bytes(op) { BYTES } else { LINKS }
}

// Whether the head is over a limit. Those on parents and on links or bytes hold for every op, also where they are unused; that on
// room for every op but 9, which has one for each of its two rows.
#[tactic(auto, unfolding(crate::specs::Limits::is_over))]
pub fn is_over(head: Head) -> bool
    ensures { result ≡ is_over head }
{
    PARENTS < head.parents
        || is_over_room(head)
        || most_rest(head.op) < head.rest
        || (head.op == ops::READ && is_over_rows(head))
}

// Reads n words to the beginning of the row, by way of raw bytes. False, with the row as it was, where the input ends first
// or one of the two is too short.
#[tactic(auto, unfolding(crate::specs::Input::row_read))]
fn read_words(raw: &mut [u8], row: &mut [u16], n: usize) -> bool
    ensures { row.new ≡ row_read result raw.new n row.old }
{
    if row.len() < n || raw.len() / 2 < n || !read_bytes(raw, 2 * n) {
        return false;
    }
    test_words::decode(raw, &mut row[..n]);
    true
}

// Reads what follows the head: the parents, then the link numbers or the bytes. False where the input ends first.
// What lies behind them in the two rows stays.
#[tactic(auto, using(crate::proofs::Behind::behind_read))]
pub fn read_rows(head: Head, links: &mut [u16], parents: &mut [u16], bytes: &mut [u8]) -> bool
    ensures { (drop head.parents parents.new ≡ drop head.parents parents.old)
        × (drop head.rest links.new ≡ drop head.rest links.old) }
{
    if !read_words(bytes, parents, head.parents) {
        return false;
    }
    if ops::takes_bytes(head.op) {
        return read_bytes(bytes, head.rest);
    }
    read_words(bytes, links, head.rest)
}

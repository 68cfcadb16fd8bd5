// For comparing: works out the table of the network on standard input once, makes one change after the other on the same rows
// of links and entries, and prints after each change a line that every number of both rows goes into.
//
// The input is 16-bit words, the high byte first: n, m, root, depth, the number of changes and the tie rule; n parents; m records of links;
// for each change its link, mark and length. One that is not a whole series within the limits prints `refused`, one whose table
// is refused `refused N P`. A change that is taken prints `ok S`, a refused one `refused N P S`: S is the mix of all of the
// links and then all of the entries, the room past the table among them.
#![tactic(auto)]

ghost use Rattle.std.specs.Prelude.{◌+◌, ◌*◌, ◌≤◌, ◌<◌, length};

use edition::{Change, Memory, Refusal, Search};
use network::Network;
use test_words::HEAD;

// The numbers of standard input and output.
const STDIN: i32 = 0;

const STDOUT: i32 = 1;

// Words of a change.
const CHANGE: usize = 3;

// The most changes of a series.
const CHANGES: usize = 1000;

// Entries of room past the table, and numbers of a row that is never too short for both.
const SPARE: usize = 2;

const LENT: usize = 2 * Memory::ENTRY_ROW;

// Bytes of the longest input, and one more, by which a longer one is seen.
const BYTES: usize = 2 * (HEAD + Memory::NODES + Memory::LINK_ROW + CHANGES * CHANGE) + 1;

// The number that lent room is filled with.
const FILL: u64 = 7;

// A mix is multiplied by the factor before each number, and is below the prime.
const FACTOR: u64 = 31;

const PRIME: u64 = 4294967291;

// The change that stands from word `at` on.
fn change_at(raw: &[u8], at: usize) -> Change
    requires { 2 * (at + 3) ≤ length raw.now }
{
    Change {
        link: test_words::word(raw, at),
        mark: test_words::word(raw, at + 1),
        length: test_words::word(raw, at + 2),
    }
}

// One more number mixed in.
fn mix(sum: u64, more: u64) -> u64 {
    (sum % PRIME * FACTOR + more % PRIME) % PRIME
}

// A row of links mixed in.
fn fold_links(links: &[u16], start: u64) -> u64 {
    let mut sum = start;
    for number in links {
        sum = mix(sum, *number as u64);
    }
    sum
}

// A row of entries mixed in.
fn fold_entries(entries: &[u64], start: u64) -> u64 {
    let mut sum = start;
    for number in entries {
        sum = mix(sum, *number);
    }
    sum
}

fn print_text(text: &[u8]) {
    io::write_all(STDOUT, text);
}

// Prints a space and a number.
fn print_number(n: u64) {
    print_text(b" ");
    io::print_decimal(STDOUT, n);
}

// Prints `refused N P`.
fn print_refusal(refusal: Refusal) {
    let why = refusal.why;
    print_text(b"refused");
    print_number(edition::number(why) as u64);
    print_number(refusal.place as u64);
}

// Prints `ok` or `refused N P`.
fn print_verdict(said: Result<(), Refusal>) {
    match said {
        Ok(()) => print_text(b"ok"),
        Err(refusal) => print_refusal(refusal),
    }
}

// Makes the change of the three words from `at` on, and prints its line.
fn step(
    raw: &[u8],
    at: usize,
    links: &mut [u16],
    parents: &[u16],
    search: Search,
    entries: &mut [u64],
)
    requires { 2 * (at + 3) ≤ length raw.now }
{
    let said = change::change(links, parents, search, entries, change_at(raw, at));
    print_verdict(said);
    print_number(fold_entries(entries, fold_links(links, 0)));
    print_text(b"\n");
}

// Makes so many changes on the rows, which hold a network and its table, in the order of the words from `from` on.
fn series(
    raw: &[u8],
    from: usize,
    count: usize,
    links: &mut [u16],
    parents: &[u16],
    search: Search,
    entries: &mut [u64],
)
    requires { 2 * (from + 3 * count) ≤ length raw.now }
{
    for i in 0..count {
        step(raw, from + i * CHANGE, links, parents, search, entries);
    }
}

// Reads the rows of a network, works out its table once, then makes so many changes.
fn worked(
    raw: &[u8],
    count: usize,
    links: &mut [u16],
    parents: &mut [u16],
    search: Search,
    entries: &mut [u64],
)
    requires { 2 * (6 + length parents.old + length links.old + 3 * count) ≤ length raw.now }
{
    test_words::decode(&raw[2 * HEAD..], parents);
    test_words::decode(&raw[2 * (HEAD + parents.len())..], links);
    let net = Network {
        links,
        parents,
        search,
    };
    if let Err(refusal) = table::table(net, entries) {
        print_refusal(refusal);
        print_text(b"\n");
        return;
    }
    let from = HEAD + parents.len() + links.len();
    series(raw, from, count, links, parents, search, entries);
}

// Prints the answer of an input. False, with nothing printed, where it is no whole series within the limits.
fn answered(raw: &[u8], links: &mut [u16], parents: &mut [u16], entries: &mut [u64]) -> bool {
    let head = test_words::head_of(raw);
    let n = head.nodes;
    let m = head.links;
    let k = head.count;
    let linked = network::numbers_of(m);
    let lent = entries::numbers_of(n) + entries::numbers_of(SPARE);
    if parents.len() < n
        || network::links_in(links) < m
        || links.len() < linked
        || entries.len() < lent
    {
        return false;
    }
    if CHANGES < k || raw.len() != 2 * (HEAD + n + linked + k * CHANGE) {
        return false;
    }
    worked(
        raw,
        k,
        &mut links[..linked],
        &mut parents[..n],
        head.search,
        &mut entries[..lent],
    );
    true
}

// Reads the input and prints its answer, by way of lent rows.
fn main() {
    let mut raw = [0u8; BYTES];
    let mut links = [0u16; Memory::LINK_ROW];
    let mut parents = [0u16; Memory::NODES];
    let mut entries = [FILL; LENT];
    let got = io::read_full(STDIN, &mut raw);
    if !answered(&raw[..got], &mut links, &mut parents, &mut entries) {
        print_text(b"refused\n");
    }
}

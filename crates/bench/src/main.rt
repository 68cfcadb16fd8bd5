// For measuring: does one of four jobs as many times as asked on the network on standard input, and prints one number that what
// it leaves goes into.
//
// The input is 16-bit words, the high byte first: n, m, root, depth, times and tie rule; n parents; m records of links; the job: 0 the table,
// 1 the change of a link (of each link outside the tree in turn, withdrawn and then in service again), 2 the write of the file,
// 3 its read. One that is not a whole network within the limits, or that is refused, prints `refused`.
#![tactic(auto)]

use edition::{Change, Edition, Memory, Search};
use network::Network;
use test_words::HEAD;

// The numbers of standard input and output.
const STDIN: i32 = 0;

const STDOUT: i32 = 1;

// Bytes of the longest input, and one more, by which a longer one is seen.
const BYTES: usize = 2 * (HEAD + Memory::NODES + Memory::LINK_ROW + 1) + 1;

// What is done as many times as asked.
#[derive(Clone, Copy)]
enum Job {
    Table,
    Change,
    Write,
    Read,
}

impl Job {
    // The job that a word names.
    fn of(word: u16) -> Job {
        match word {
            0 => Job::Table,
            1 => Job::Change,
            2 => Job::Write,
            _ => Job::Read,
        }
    }
}

// The number turned by one bit, and another one added, modulo 2^64.
fn mix(sum: u64, more: u64) -> u64 {
    ((sum << 1) | (sum >> 63)).wrapping_add(more)
}

// A row of numbers mixed into one.
fn fold(row: &[u64], start: u64) -> u64 {
    let mut sum = start;
    for number in row {
        sum = mix(sum, *number);
    }
    sum
}

// Bytes mixed into one number.
fn fold_bytes(bytes: &[u8], start: u64) -> u64 {
    let mut sum = start;
    for byte in bytes {
        sum = mix(sum, *byte as u64);
    }
    sum
}

// Whether link e is no parent link of its ends.
fn is_spare(links: &[u16], parents: &[u16], e: usize) -> bool {
    let l = network::link_at(links, e);
    network::parent_of(parents, l.first as usize) as usize != e
        && network::parent_of(parents, l.second as usize) as usize != e
}

// The link after e, the first one after the last.
fn after(m: usize, e: usize) -> usize {
    if e < m && e + 1 < m { e + 1 } else { 0 }
}

// The next link after e that is no parent link of its ends.
fn next_spare(links: &[u16], parents: &[u16], e: usize) -> usize {
    let m = network::links_in(links);
    let mut at = after(m, e);
    for _turn in 0..m {
        if is_spare(links, parents, at) {
            return at;
        }
        at = after(m, at);
    }
    at
}

// Withdraws link e at the even times, and sets it in service again at the odd ones.
fn change_once(
    links: &mut [u16],
    parents: &[u16],
    search: Search,
    entries: &mut [u64],
    e: usize,
    i: usize,
) -> bool {
    if Memory::LINKS <= e {
        return false;
    }
    let l = network::link_at(links, e);
    let change = Change {
        link: e as u16,
        mark: (i % 2) as u16,
        length: l.length,
    };
    change::change(links, parents, search, entries, change).is_ok()
}

// The length of the file, 0 where it is refused.
fn write_once(net: Network, file: &mut [u8]) -> usize {
    archive::write(net.links, net.parents, net.search.aim(), file).unwrap_or(0)
}

// Reads the first bytes of a row, where it has so many.
fn read_once(
    file: &[u8],
    size: usize,
    links: &mut [u16],
    parents: &mut [u16],
    entries: &mut [u64],
) -> bool {
    size <= file.len() && archive::read(&file[..size], links, parents, entries).is_ok()
}

// The job, once.
fn once(
    links: &mut [u16],
    parents: &mut [u16],
    search: Search,
    entries: &mut [u64],
    file: &mut [u8],
    size: usize,
    job: Job,
    e: usize,
    i: usize,
) -> bool {
    match job {
        Job::Table => table::table(
            Network {
                links,
                parents,
                search,
            },
            entries,
        )
        .is_ok(),
        Job::Change => change_once(links, parents, search, entries, e, i),
        Job::Write => write_once(
            Network {
                links,
                parents,
                search,
            },
            file,
        ) == size,
        Job::Read => read_once(file, size, links, parents, entries),
    }
}

// The job so many times.
fn repeat(
    links: &mut [u16],
    parents: &mut [u16],
    search: Search,
    entries: &mut [u64],
    file: &mut [u8],
    size: usize,
    job: Job,
    times: usize,
) -> Option<u64> {
    let mut sum = 0;
    let mut e = 0;
    for i in 0..times {
        if i % 2 == 0 {
            e = next_spare(links, parents, e);
        }
        if !once(links, parents, search, entries, file, size, job, e, i) {
            return None;
        }
        sum = mix(sum, rows::wide_at(entries, i));
    }
    Some(fold_bytes(&file[..size.min(file.len())], fold(entries, sum)))
}

// The length of the file, which is written where the job has to do with one.
fn file_size(net: Network, file: &mut [u8], job: Job) -> usize {
    match job {
        Job::Table | Job::Change => 0,
        Job::Write | Job::Read => write_once(net, file),
    }
}

// The table first, and the file where the job has to do with one; then the job.
fn prepared(
    links: &mut [u16],
    parents: &mut [u16],
    search: Search,
    entries: &mut [u64],
    file: &mut [u8],
    job: Job,
    times: usize,
) -> Option<u64> {
    let net = Network {
        links,
        parents,
        search,
    };
    table::table(net, entries).ok()?;
    let size = file_size(net, file, job);
    repeat(links, parents, search, entries, file, size, job, times)
}

// The rows of the bytes of an input, and what comes of them: a number, none where it is refused.
fn decoded(
    raw: &[u8],
    links: &mut [u16],
    parents: &mut [u16],
    entries: &mut [u64],
    file: &mut [u8],
) -> Option<u64> {
    let head = test_words::head_of(raw);
    let words = HEAD + parents.len() + links.len();
    if raw.len() % 2 != 0 || raw.len() / 2 != words + 1 {
        return None;
    }
    test_words::decode(&raw[2 * HEAD..], parents);
    test_words::decode(&raw[2 * (HEAD + parents.len())..], links);
    let job = Job::of(test_words::word(raw, words));
    prepared(links, parents, head.search, entries, file, job, head.count)
}

// What comes of the bytes of an input.
fn worked(
    raw: &[u8],
    links: &mut [u16],
    parents: &mut [u16],
    entries: &mut [u64],
    file: &mut [u8],
) -> Option<u64> {
    let head = test_words::head_of(raw);
    let n = head.nodes;
    let m = head.links;
    let linked = network::numbers_of(m);
    let tabled = entries::numbers_of(n);
    if parents.len() < n
        || network::links_in(links) < m
        || links.len() < linked
        || entries.len() < tabled
    {
        return None;
    }
    decoded(
        raw,
        &mut links[..linked],
        &mut parents[..n],
        &mut entries[..tabled],
        file,
    )
}

// Reads the input and prints its answer, by way of lent rows.
fn main() {
    let mut raw = [0u8; BYTES];
    let mut links = [0u16; Memory::LINK_ROW];
    let mut parents = [0u16; Memory::NODES];
    let mut entries = [0u64; Memory::ENTRY_ROW];
    let mut file = [0u8; Edition::FILE_BYTES];
    let got = io::read_full(STDIN, &mut raw);
    match worked(
        &raw[..got],
        &mut links,
        &mut parents,
        &mut entries,
        &mut file,
    ) {
        Some(sum) => {
            io::print_decimal(STDOUT, sum);
            io::write_all(STDOUT, b"\n");
        }
        None => {
            io::write_all(STDOUT, b"refused\n");
        }
    }
}

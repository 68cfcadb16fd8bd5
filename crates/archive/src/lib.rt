// The file of a network and depth: which block holds which records, the writer and the reader.
#![tactic(auto)]

ghost use Rattle.std.specs.Prelude.{◌≡◌, ◌+◌, ◌*◌, ◌-◌, ◌<◌, ◌≤◌, min, ◌++◌, length, take, drop, replicate};
ghost use Rattle.edition.specs.Limits.{node_limit, link_limit, entry_room};
ghost use Rattle.edition.specs.Stored.{by_number, block_bytes, entry_bytes};
ghost use Rattle.entries.specs.Row.{entries_in, past_entries};
ghost use Rattle.network.specs.Network.{lent, net_of, links_in, past_links};
ghost use Rattle.numbers.specs.Bytes.{word_most};
ghost use Rattle.record.specs.Record.{record_put};
ghost use Rattle.archive.specs.Work.{copied, held_bytes, record_by, laid, Held, Tabled, links_from};
ghost use Rattle.archive.specs.Work.{parent_number, bad_by, Placed, Blocked, Judged, blocks_verdict};
ghost use Rattle.rows.specs.Count.{row_with};
ghost use Rattle.rows.specs.Lists.{same};
ghost use Rattle.rows.specs.First.{first_to, verdict_to};
ghost use Rattle.archive.specs.Reader.{Rows, block_refusal, head_read, net_read, bad_file_length, head_verdict, too_short, read_verdict, read_answer};
ghost use Rattle.archive.specs.Reader.{rows_read};
ghost use Rattle.archive.specs.Reader.{nodes_read, links_read, stored_link, links_held, parents_held};
ghost use Rattle.table.specs.Table.{table};
ghost use Rattle.archive.specs.Writer.{block_of, file_of, file_length, write_verdict, write_answer, written_row};
ghost use Rattle.edition.specs.Refusals.{taken};
ghost use Rattle.archive.specs.Parts.{blocks_for, block_count, part_of, part_at, link_place, entry_place};

use edition::{Aim, Edition, Memory, Refusal, Search, Why};
use network::{Link, Network};

// What a block holds: its kind, the number of its first record, and how many it holds.
#[derive(Clone, Copy)]
pub struct Part {
    pub kind: u8,
    pub from: usize,
    pub used: usize,
}

// What a file's header says: how many nodes and links there are, the root and the depth, which mean a search by tie rule 0.
#[derive(Clone, Copy)]
pub struct Header {
    pub nodes: usize,
    pub links: usize,
    pub search: Search,
}

// How many blocks a file of n nodes and m links has.
#[tactic(auto, unfolding(crate::specs::Parts::block_count, crate::specs::Parts::blocks_for))]
fn block_count(n: usize, m: usize) -> usize
    requires { (n ≤ word_most) × (m ≤ word_most) }
    ensures { result ≡ block_count n m }
{
    1 + m.div_ceil(Edition::LINKS_A_BLOCK) + n.div_ceil(Edition::ENTRIES_A_BLOCK)
}

// Block j of those of a kind: each but the last is full.
#[tactic(auto, unfolding(crate::specs::Parts::part_of))]
fn part_of(kind: u8, each: usize, c: usize, j: usize) -> Part
    requires { (each ≤ word_most) × (j ≤ word_most) }
    ensures { result ≡ part_of kind each c j }
{
    let from = j * each;
    Part {
        kind,
        from,
        used: each.min(c.saturating_sub(from)),
    }
}

// Block i of a file of n nodes and m links.
#[tactic(auto, unfolding(crate::specs::Parts::part_at, crate::specs::Parts::blocks_for))]
fn part_at(n: usize, m: usize, i: usize) -> Part
    requires { (n ≤ word_most) × (m ≤ word_most) × (i ≤ word_most) }
    ensures { result ≡ part_at n m i }
{
    if i == 0 {
        return part_of(Edition::HEADER_KIND, Edition::HEADERS_A_BLOCK, 1, 0);
    }
    let before = m.div_ceil(Edition::LINKS_A_BLOCK);
    if i <= before {
        return part_of(Edition::LINKS_KIND, Edition::LINKS_A_BLOCK, m, i - 1);
    }
    part_of(
        Edition::TABLE_KIND,
        Edition::ENTRIES_A_BLOCK,
        n,
        i - 1 - before,
    )
}

// Bytes a record of a kind.
#[tactic(auto, unfolding(crate::specs::Work::held_bytes))]
fn held_bytes(kind: u8) -> usize
    ensures { result ≡ held_bytes kind }
{
    match kind {
        Edition::HEADER_KIND => Edition::HEADER_BYTES,
        Edition::LINKS_KIND => Edition::LINK_BYTES,
        _ => Edition::ENTRY_BYTES,
    }
}

// Puts record r of a kind from a place on.
#[tactic(auto, unfolding(crate::specs::Work::held_bytes, crate::specs::Work::record_by))]
fn put_record(net: Network, entries: &[u64], kind: u8, r: usize, block: &mut [u8], at: usize)
    requires { (length net.parents.now ≤ node_limit) × (links_in net.links.now ≤ link_limit) }
    ensures { let record' = record_by net.entry.links.now net.entry.parents.now net.entry.search entries.now kind r in
        block.new ≡ record_put at (held_bytes kind) record' block.old }
{
    match kind {
        Edition::HEADER_KIND => {
            let n = net.parents.len() as u16;
            record::put_header(
                block,
                at,
                n,
                network::links_in(net.links) as u16,
                net.search,
            );
        }
        Edition::LINKS_KIND => record::put_link(block, at, network::link_at(net.links, r)),
        _ => record::put_entry(
            block,
            at,
            network::parent_of(net.parents, r),
            entries::entry_at(entries, r),
        ),
    }
}

// Puts the records of a part behind the front of a block.
#[tactic(auto, using(crate::proofs::Laying::laid_none, crate::proofs::Laying::record_put_next), unfolding(crate::specs::Work::laid))]
fn put_records(net: Network, entries: &[u64], part: Part, block: &mut [u8])
    requires { Held part (length block.old)
        × (length net.parents.now ≤ node_limit)
        × (links_in net.links.now ≤ link_limit) }
    ensures { let record' = record_by net.entry.links.now net.entry.parents.now net.entry.search entries.now part.kind in
        block.new ≡ laid record' part block.old }
{
    let size = held_bytes(part.kind);
    for r in 0..part.used {
        put_record(
            net,
            entries,
            part.kind,
            part.from + r,
            block,
            Edition::FRONT_BYTES + r * size,
        );
    }
}

// Block i of the file, by the table of the network.
fn write_block(net: Network, entries: &[u64], i: usize, block: &mut [u8])
    requires { let g = lent net in
        Tabled g entries.now
        × (i < block_count (length net.parents.now) (links_in net.links.now))
        × (length block.old ≡ block_bytes) }
    ensures { let g = lent net.entry in
        block.new ≡ block_of g i }
{
    let part = part_at(net.parents.len(), network::links_in(net.links), i);
    put_records(net, entries, part, block);
    block::seal(part.kind, i as u16, part.used as u16, block);
}

// The length of a file of n nodes and m links.
#[tactic(auto, using(crate::proofs::WriterAnswer::few_blocks))]
fn file_length(n: usize, m: usize) -> usize
    requires { (n ≤ word_most) × (m ≤ word_most) }
    ensures { result ≡ block_count n m * block_bytes }
{
    block_count(n, m) * Edition::BLOCK_BYTES
}

// The blocks of the file, one after the other.
#[tactic(auto, using(crate::proofs::WriterLoop::filed_none, crate::proofs::WriterAnswer::count_small))]
fn write_blocks(net: Network, entries: &[u64], file: &mut [u8])
    requires { let g = lent net in
        Tabled g entries.now
        × (file_length g ≤ length file.old) }
    ensures { let g = lent net.entry in
        file.new ≡ file_of g ++ drop (file_length g) file.old }
{
    let count = block_count(net.parents.len(), network::links_in(net.links));
    for i in 0..count {
        let at = i * Edition::BLOCK_BYTES;
        write_block(net, entries, i, &mut file[at..at + Edition::BLOCK_BYTES]);
    }
}

// Whether a file can be written: refusals 1 to 9, then 10 where fewer bytes are lent than the file needs.
#[tactic(auto, unfolding(crate::specs::Writer::write_verdict))]
pub fn check_write(links: &[u16], parents: &[u16], aim: Aim, file: &[u8]) -> Result<(), Refusal>
    ensures { let g = net_of links.now parents.now (by_number aim) in
        result ≡ write_verdict g file.now }
{
    let net = Network {
        links,
        parents,
        search: aim.by_number(),
    };
    let said = sound::check_network(net);
    let Ok(sizes) = said else {
        return sound::handed_up(said);
    };
    let length = file_length(sizes.nodes, sizes.links);
    rows::refuse_if(file.len() < length, Why::NoRoom, 0)
}

// The file of a network and depth, by tie rule 0, into lent bytes, and its length. Nothing is written on a refusal, nor past the file.
pub fn write(links: &[u16], parents: &[u16], aim: Aim, file: &mut [u8]) -> Result<usize, Refusal>
    ensures { let g = net_of links.now parents.now (by_number aim) in
        (result ≡ write_answer g file.old)
        × (file.new ≡ written_row g file.old) }
{
    let net = Network {
        links,
        parents,
        search: aim.by_number(),
    };
    let mut entries = [0u64; Memory::ENTRY_ROW];
    table::table(net, &mut entries)?;
    let length = file_length(parents.len(), network::links_in(links));
    rows::refuse_if(file.len() < length, Why::NoRoom, 0)?;
    write_blocks(net, &entries, file);
    Ok(length)
}

// What block i of a file of n nodes and m links is refused for.
#[tactic(auto, using(crate::proofs::Parting::part_small))]
fn check_part(file: &[u8], n: usize, m: usize, i: usize) -> Result<(), Refusal>
    requires { (n ≤ word_most)
        × (m ≤ word_most)
        × (i ≤ word_most)
        × (i * block_bytes + block_bytes ≤ length file.now) }
    ensures { result ≡ block_refusal file.now n m i }
{
    let part = part_at(n, m, i);
    let at = i * Edition::BLOCK_BYTES;
    block::check_block(
        part.kind as u16,
        i as u16,
        part.used as u16,
        &file[at..at + Edition::BLOCK_BYTES],
    )
}

// The first refusal of the blocks of a file, in number order.
#[tactic(auto, using(crate::proofs::WriterAnswer::few_blocks))]
fn check_blocks(file: &[u8], n: usize, m: usize) -> Result<(), Refusal>
    requires { (n ≤ word_most) × (m ≤ word_most) × (block_count n m * block_bytes ≤ length file.now) }
    ensures { result ≡ verdict_to (block_refusal file.now n m) (block_count n m) }
{
    let count = block_count(n, m);
    let mut i = 0;
    let said = loop {
        if count <= i {
            break Ok(());
        }
        let here = check_part(file, n, m, i);
        let Ok(()) = here else {
            break here;
        };
        i += 1;
    };
    said
}

// What a file's header says.
#[tactic(auto, unfolding(crate::specs::Reader::head_read, crate::specs::Reader::nodes_read, crate::specs::Reader::links_read, crate::specs::Reader::search_read))]
fn header_of(file: &[u8]) -> Header
    ensures { result ≡ head_read file.now }
{
    let aim = Aim {
        root: numbers::two_at(file, 12),
        depth: numbers::two_at(file, 14),
    };
    Header {
        nodes: numbers::two_at(file, 8) as usize,
        links: numbers::two_at(file, 10) as usize,
        search: aim.by_number(),
    }
}

// Whether a file is empty or not a multiple of 512 bytes.
#[tactic(auto, unfolding(crate::specs::Reader::bad_file_length))]
fn is_unequal(file: &[u8]) -> bool
    ensures { result ≡ bad_file_length file.now }
{
    file.is_empty() || file.len() % Edition::BLOCK_BYTES != 0
}

// The length, the header's block, and 1 to 4 from its numbers at edition 1's limits.
#[tactic(auto, unfolding(crate::specs::Reader::head_verdict, crate::specs::Reader::head_read, rows::specs::First::firstly))]
fn check_head(file: &[u8]) -> Result<(), Refusal>
    ensures { result ≡ head_verdict file.now }
{
    rows::refuse_if(is_unequal(file), Why::BadLength, 0)?;
    check_part(file, 0, 0, 0)?;
    let head = header_of(file);
    network::check_sizes(Edition::limits(), head.nodes, head.links, head.search)
}

// Where the record of link e stands in a file.
#[tactic(auto, unfolding(crate::specs::Parts::link_place))]
fn link_place(e: usize) -> usize
    requires { e ≤ word_most }
    ensures { result ≡ link_place e }
{
    (1 + e / Edition::LINKS_A_BLOCK) * Edition::BLOCK_BYTES
        + Edition::FRONT_BYTES
        + e % Edition::LINKS_A_BLOCK * Edition::LINK_BYTES
}

// Where the entry of x stands in a file of m links.
#[tactic(auto, unfolding(crate::specs::Parts::entry_place, crate::specs::Parts::blocks_for))]
fn entry_place(m: usize, x: usize) -> usize
    requires { (m ≤ word_most) × (x ≤ word_most) }
    ensures { result ≡ entry_place m x }
{
    let before = m.div_ceil(Edition::LINKS_A_BLOCK);
    (1 + before + x / Edition::ENTRIES_A_BLOCK) * Edition::BLOCK_BYTES
        + Edition::FRONT_BYTES
        + x % Edition::ENTRIES_A_BLOCK * Edition::ENTRY_BYTES
}

// Link e as a file stores it.
#[tactic(auto, unfolding(crate::specs::Parts::link_place, crate::specs::Reader::stored_link))]
fn stored_link(file: &[u8], e: usize) -> Link
    requires { e ≤ word_most }
    ensures { result ≡ stored_link file.now e }
{
    let at = link_place(e);
    Link {
        first: numbers::two_at(file, at),
        second: numbers::two_at(file, at + 2),
        length: numbers::two_at(file, at + 4),
        mark: numbers::two_at(file, at + 6),
    }
}

// The records of a file's m links, at the beginning of a row.
#[tactic(auto, using(crate::proofs::Holding::links_none, crate::proofs::Holding::links_more))]
fn fill_links(file: &[u8], m: usize, row: &mut [u16])
    requires { (m ≤ word_most) × (m ≤ links_in row.old) }
    ensures { row.new ≡ links_from file.now m row.old }
{
    for e in 0..m {
        network::put_link(row, e, stored_link(file, e));
    }
}

// The parent links of a file of n nodes and m links, at the beginning of a row.
fn fill_parents(file: &[u8], m: usize, n: usize, row: &mut [u16])
    requires { (m ≤ word_most) × (n ≤ word_most) × (n ≤ length row.old) }
    ensures { row.new ≡ row_with (parent_number file.now m) n row.old }
{
    for (x, parent) in row[0..n].iter_mut().enumerate() {
        *parent = numbers::two_at(file, entry_place(m, x));
    }
}

// Whether the stored entry of x is not the one of a row of entries.
fn is_bad_entry(file: &[u8], m: usize, parents: &[u16], entries: &[u64], x: usize) -> bool
    requires { (m ≤ word_most) × (x < node_limit) × (entry_place m x + entry_bytes ≤ length file.now) }
    ensures { result ≡ bad_by file.now m parents.now entries.now x }
{
    let mut own = [0u8; Edition::ENTRY_BYTES];
    record::put_entry(
        &mut own,
        0,
        network::parent_of(parents, x),
        entries::entry_at(entries, x),
    );
    !file[entry_place(m, x)..].starts_with(&own)
}

// The lowest node whose stored entry is not the one of a row of entries.
fn seek_bad_entry(file: &[u8], m: usize, parents: &[u16], entries: &[u64]) -> Option<usize>
    requires { (m ≤ word_most)
        × (length parents.now ≤ node_limit)
        × Placed file.now m (length parents.now) }
    ensures { result ≡ first_to (bad_by file.now m parents.now entries.now) (length parents.now) }
{
    for x in 0..parents.len() {
        if is_bad_entry(file, m, parents, entries, x) {
            return Some(x);
        }
    }
    None
}

// 5 to 9, then 10 where a lent row is too short, then 24, of a file and the rows that it holds. A row of zeros is lent to work the
// table out in.
fn check_content(file: &[u8], net: Network, short: bool, worked: &mut [u64]) -> Result<(), Refusal>
    requires { Placed file.now (links_in net.links.now) (length net.parents.now)
        × (worked.old ≡ replicate entry_room 0) }
    ensures { let g = lent net.entry in
        Judged file.now g short result worked.new }
{
    table::table(net, worked)?;
    rows::refuse_if(short, Why::NoRoom, 0)?;
    let bad = seek_bad_entry(file, network::links_in(net.links), net.parents, worked);
    rows::refused_at(Why::BadEntry, bad)
}

// 5 to 9, 10 and 24, of a file whose length and blocks are right.
fn check_records(file: &[u8], head: Header, short: bool, worked: &mut [u64]) -> Result<(), Refusal>
    requires { Blocked file.now head × (worked.old ≡ replicate entry_room 0) }
    ensures { Judged file.now (net_read file.now) short result worked.new }
{
    let n = head.nodes;
    let m = head.links;
    let mut link_row = [0u16; Memory::LINK_ROW];
    fill_links(file, m, &mut link_row);
    let mut parent_row = [0u16; Memory::NODES];
    fill_parents(file, m, n, &mut parent_row);
    let links = network::first_links(&link_row, m);
    let parents = rows::first(&parent_row, n);
    let net = Network {
        links,
        parents,
        search: head.search,
    };
    check_content(file, net, short, worked)
}

// Whether a lent row is too short for what a file holds.
#[tactic(auto, unfolding(crate::specs::Reader::too_short))]
fn is_too_short(head: Header, links: &[u16], parents: &[u16], entries: &[u64]) -> bool
    ensures { let rows : Rows = record { links = links.entry.now; parents = parents.now; entries = entries.now } in
        result ≡ too_short head.nodes head.links rows }
{
    network::links_in(links) < head.links
        || parents.len() < head.nodes
        || entries::entries_in(entries) < head.nodes
}

// What is refused before the records are read: the head, then the length, then block by block.
#[tactic(auto, unfolding(crate::specs::Work::blocks_verdict, crate::specs::Reader::head_read, rows::specs::First::firstly))]
fn check_file(file: &[u8]) -> Result<(), Refusal>
    ensures { result ≡ blocks_verdict file.now }
{
    check_head(file)?;
    let head = header_of(file);
    let length = file_length(head.nodes, head.links);
    rows::refuse_if(file.len() != length, Why::BadLength, 0)?;
    check_blocks(file, head.nodes, head.links)
}

// Whether a file is accepted: refusals in the order for a file. Nothing is written.
pub fn check_read(
    file: &[u8],
    links: &[u16],
    parents: &[u16],
    entries: &[u64],
) -> Result<(), Refusal>
    ensures { let rows : Rows = record { links = links.entry.now; parents = parents.now; entries = entries.now } in
        result ≡ read_verdict file.now rows }
{
    check_file(file)?;
    let head = header_of(file);
    let short = is_too_short(head, links, parents, entries);
    let mut worked = [0u64; Memory::ENTRY_ROW];
    check_records(file, head, short, &mut worked)
}

// The first n entries of a row, at the beginning of another. Entry by entry: of one copy of all numbers the compiler makes a call
// of memcpy, and the library for C calls nothing but memset.
#[tactic(auto, using(crate::proofs::Copying::copied_none, crate::proofs::Copying::copied_more))]
fn copy_entries(from: &[u64], n: usize, row: &mut [u64])
    requires { n ≤ entries_in row.old }
    ensures { row.new ≡ copied from.now n row.old }
{
    for x in 0..n {
        entries::put_entry(row, x, entries::entry_at(from, x));
    }
}

// What an accepted file holds, at the beginning of the lent rows; its table is worked out already.
fn fill_rows(
    file: &[u8],
    head: Header,
    worked: &[u64],
    links: &mut [u16],
    parents: &mut [u16],
    entries: &mut [u64],
)
    requires { let rows : Rows = record { links = links.now; parents = parents.old; entries = entries.old } in
        (read_verdict file.now rows ≡ taken)
        × (head ≡ head_read file.now)
        × Tabled (net_read file.now) worked.now }
    ensures { let bytes = file.now in
        let n = nodes_read bytes in
        (links.new ≡ links_held bytes ++ past_links (links_read bytes) links.old)
        × (parents.new ≡ parents_held bytes ++ drop n parents.old)
        × (entries.new ≡ table (net_read bytes) ++ past_entries n entries.old) }
{
    let n = head.nodes;
    let m = head.links;
    fill_links(file, m, links);
    fill_parents(file, m, n, parents);
    copy_entries(worked, n, entries);
}

// The rows of links, parents and entries that a file holds, and what its header says. Accepted is the one file of its network and
// depth, and no other. Nothing is written on a refusal, nor past the records.
pub fn read(
    file: &[u8],
    links: &mut [u16],
    parents: &mut [u16],
    entries: &mut [u64],
) -> Result<Header, Refusal>
    ensures { let rows : Rows = record { links = links.entry.now; parents = parents.old; entries = entries.old } in
        let after = rows_read file.now rows in
        (result ≡ read_answer file.now rows)
        × (links.exit.now ≡ after.links)
        × (parents.new ≡ after.parents)
        × (entries.new ≡ after.entries) }
{
    check_file(file)?;
    let head = header_of(file);
    let short = is_too_short(head, links, parents, entries);
    let mut worked = [0u64; Memory::ENTRY_ROW];
    check_records(file, head, short, &mut worked)?;
    fill_rows(file, head, &worked, links, parents, entries);
    Ok(head)
}

// swapfix FILE CORRECTIONS NEW: makes the file NEW, which is FILE with the corrections in it, each a line `LINK up|down LENGTH`,
// and lists the entries that changed, old and new. All or nothing: the first correction that is refused is said, and there is
// no file NEW then.
#![tactic(auto)]

use desk::Desk;
use edition::{Change, Entry, Memory, Search, Swap};
use network::Network;
use std::io::Print;
use std::rt::Files;
use text::{Cursor, Line, Word};

// Bytes of the buffer that what is printed waits in: it holds the two longest lines of every node, 73 bytes each, so that
// nothing is printed before all of the new file is written, and all of it before that gets its name.
const OUT: usize = 2 * 80 * Memory::NODES;

// What a line can lack.
#[derive(Clone, Copy)]
enum Lack {
    Link,
    Service,
    Length,
    End,
}

// The change that a line asks for.
fn change_of(line: Line) -> Result<Change, Lack> {
    let Word::Number(link) = line.kind else {
        return Err(Lack::Link);
    };
    if line.a != Word::Up && line.a != Word::Down {
        return Err(Lack::Service);
    }
    let Word::Number(length) = line.b else {
        return Err(Lack::Length);
    };
    if line.c != Word::End {
        return Err(Lack::End);
    }
    Ok(Change {
        link,
        mark: text::mark_of(line.a),
        length,
    })
}

// Says what a line lacked.
fn say_lack(name: &[u8], number: usize, lack: Lack) -> bool {
    match lack {
        Lack::Link => desk::expected(name, number, b"the number of a link"),
        Lack::Service => desk::expected(name, number, b"`up` or `down`"),
        Lack::Length => desk::expected_number(
            name,
            number,
            b"a length up to ",
            Word::MOST as usize,
        ),
        Lack::End => desk::expected(name, number, b"the end of the line"),
    }
}

// Makes a change; where it is refused, that is said with the line's number.
fn fix(
    name: &[u8],
    number: usize,
    change: Change,
    links: &mut [u16],
    parents: &[u16],
    search: Search,
    entries: &mut [u64],
) -> bool {
    match change::change(links, parents, search, entries, change) {
        Ok(()) => true,
        Err(refusal) => desk::refused_at(name, number, refusal),
    }
}

// Takes a line; one without words asks for nothing. What a line lacks is said.
fn take_line(
    name: &[u8],
    number: usize,
    line: Line,
    links: &mut [u16],
    parents: &[u16],
    search: Search,
    entries: &mut [u64],
) -> bool {
    if line.kind == Word::End {
        return true;
    }
    match change_of(line) {
        Ok(change) => fix(name, number, change, links, parents, search, entries),
        Err(lack) => say_lack(name, number, lack),
    }
}

// Takes the lines one after the other, to the first that is refused, and answers whether none was.
fn take_lines(
    name: &[u8],
    text: &[u8],
    links: &mut [u16],
    parents: &[u16],
    search: Search,
    entries: &mut [u64],
) -> bool {
    if !desk::text_fits(name, text) {
        return false;
    }
    let mut cursor = Cursor::begin(text);
    while cursor.at < text.len() {
        if cursor.is_torn(text) {
            return desk::torn(name, cursor.number);
        }
        let step = cursor.next_line(text);
        if !take_line(
            name,
            cursor.number,
            step.line,
            links,
            parents,
            search,
            entries,
        ) {
            return false;
        }
        cursor = step.next;
    }
    true
}

// Prints the old and the new line of node x, where they differ.
fn put_changed(
    out: &mut [u8],
    at: usize,
    x: usize,
    parents: &[u16],
    old: &[u64],
    new: &[u64],
) -> usize {
    if entries::entry_at(old, x) == entries::entry_at(new, x) {
        return at;
    }
    let before = output::put(out, at, b"old ");
    let told = listing::put_node(out, before, x, parents, old);
    let after = output::put(out, told, b"new ");
    listing::put_node(out, after, x, parents, new)
}

// Prints the entries that changed.
fn put_all(out: &mut [u8], parents: &[u16], old: &[u64], new: &[u64]) -> usize {
    let mut waits = 0;
    for x in 0..parents.len() {
        waits = put_changed(out, waits, x, parents, old, new);
    }
    waits
}

// Makes the file of the network and prints the first bytes of `out`.
fn store<R: Files + Print + Alloc>(
    rt: &R,
    to: &[u8],
    net: Network,
    out: &[u8],
    waits: usize,
) -> bool {
    let mut file = [0u8; Desk::FILE];
    match archive::write(net.links, net.parents, net.search.aim(), &mut file) {
        Ok(size) => desk::write_new(rt, to, &file, size, out, waits),
        Err(refusal) => desk::refused(to, refusal),
    }
}

// Makes the corrections in the rows and the file of what they are then, and lists the entries that changed.
fn correct<R: Files + Print + Alloc>(
    rt: &R,
    by: &[u8],
    to: &[u8],
    text: &[u8],
    links: &mut [u16],
    parents: &[u16],
    search: Search,
    old: &[u64],
    entries: &mut [u64],
) -> bool {
    if !take_lines(by, text, links, parents, search, entries) {
        return false;
    }
    let mut out = [0u8; OUT];
    let waits = put_all(&mut out, parents, old, entries);
    let net = Network {
        links,
        parents,
        search,
    };
    store(rt, to, net, &out, waits)
}

// Reads the file and corrects as much of the rows as its header says; its entries as they were are kept beside.
fn correct_file<R: Files + Print + Alloc>(
    rt: &R,
    from: &[u8],
    by: &[u8],
    to: &[u8],
    file: &[u8],
    text: &[u8],
) -> bool {
    let mut links = [0u16; Memory::LINK_ROW];
    let mut parents = [0u16; Memory::NODES];
    let mut entries = [0u64; Memory::ENTRY_ROW];
    match archive::read(file, &mut links, &mut parents, &mut entries) {
        Ok(header) => {
            let old = entries;
            let k = network::numbers_of(header.links);
            let named = rows::first(&parents, header.nodes);
            let search = header.search;
            k <= links.len()
                && correct(
                    rt,
                    by,
                    to,
                    text,
                    &mut links[..k],
                    named,
                    search,
                    &old,
                    &mut entries,
                )
        }
        Err(refusal) => desk::refused(from, refusal),
    }
}

// Reads the corrections, and makes them in the file.
fn with_text<R: Files + Print + Alloc>(
    rt: &R,
    from: &[u8],
    by: &[u8],
    to: &[u8],
    file: &[u8],
) -> bool {
    let mut text = desk::text_room();
    let Some(long) = desk::read(rt, by, &mut text) else {
        return false;
    };
    desk::file_fits(from, file.len())
        && long <= text.len()
        && correct_file(rt, from, by, to, file, &text[..long])
}

// Makes the file `to` of the file `from`, corrected by the text in the file `by`.
fn run<R: Files + Print + Alloc>(rt: &R, from: &[u8], by: &[u8], to: &[u8]) -> bool {
    let mut file = [0u8; Desk::FILE + 1];
    let Some(size) = desk::read(rt, from, &mut file) else {
        return false;
    };
    size <= file.len() && with_text(rt, from, by, to, &file[..size])
}

fn main(rt: HostRuntime) {
    if desk::arg_count(&rt) != 4 {
        desk::usage(b"swapfix FILE CORRECTIONS NEW");
        return;
    }
    let mut first = [0u8; Desk::NAME];
    let mut second = [0u8; Desk::NAME];
    let mut third = [0u8; Desk::NAME];
    let from = desk::arg(&rt, 1, &mut first);
    let by = desk::arg(&rt, 2, &mut second);
    let to = desk::arg(&rt, 3, &mut third);
    if desk::is_name(b"FILE", from)
        && desk::is_name(b"CORRECTIONS", by)
        && desk::is_name(b"NEW", to)
    {
        run(&rt, &first[..from], &second[..by], &third[..to]);
    }
}

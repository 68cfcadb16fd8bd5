// swapfile TEXT FILE: makes the file of a network and depth that are written in plain text, or says why not.
#![tactic(auto)]

use desk::Desk;
use edition::{Aim, Edition, Memory};
use network::Link;
use std::io::Print;
use std::rt::Files;
use text::{Cursor, Line, Word};

// What the lines so far have said: how many nodes and links, and the root and the depth where there was a line of it.
#[derive(Clone, Copy)]
struct Told {
    nodes: usize,
    links: usize,
    root: Option<u16>,
    depth: Option<u16>,
}

// What a line can lack.
#[derive(Clone, Copy)]
enum Lack {
    Kind,
    Number,
    Depth,
    Service,
    End,
    Link(usize),
    Node(usize),
    Parent,
    OneRoot,
    OneDepth,
    FewLinks,
    FewNodes,
}

// That a line has ended with this word.
fn ended(word: Word) -> Result<(), Lack> {
    if word == Word::End {
        Ok(())
    } else {
        Err(Lack::End)
    }
}

// The number that a word is.
fn number_of(word: Word) -> Result<u16, Lack> {
    match word {
        Word::Number(number) => Ok(number),
        _ => Err(Lack::Number),
    }
}

// Whether a word is this number.
fn is_number(word: Word, number: usize) -> bool {
    match word {
        Word::Number(said) => said as usize == number,
        _ => false,
    }
}

// The service mark that a word names.
fn mark_of(word: Word) -> Result<u16, Lack> {
    match word {
        Word::Up | Word::Down => Ok(text::mark_of(word)),
        _ => Err(Lack::Service),
    }
}

// Takes the words of a line `link NUMBER END END LENGTH up|down`. The numbers of links go up from 0.
fn take_link(line: Line, told: Told, links: &mut [u16]) -> Result<Told, Lack> {
    let e = told.links;
    if Memory::LINKS <= e {
        return Err(Lack::FewLinks);
    }
    if !is_number(line.a, e) {
        return Err(Lack::Link(e));
    }
    let link = Link {
        first: number_of(line.b)?,
        second: number_of(line.c)?,
        length: number_of(line.d)?,
        mark: mark_of(line.e)?,
    };
    ended(line.rest)?;
    network::put_link(links, e, link);
    Ok(Told {
        links: e + 1,
        ..told
    })
}

// The parent link that a word names; `root` names none.
fn parent_of(word: Word) -> Result<u16, Lack> {
    match word {
        Word::Root => Ok(Edition::no_link()),
        Word::Number(link) if link < Word::MOST => Ok(link),
        _ => Err(Lack::Parent),
    }
}

// Takes the words of a line `node NUMBER PARENT`. The numbers of nodes go up from 0.
fn take_node(line: Line, told: Told, parents: &mut [u16]) -> Result<Told, Lack> {
    let u = told.nodes;
    if Memory::NODES <= u {
        return Err(Lack::FewNodes);
    }
    if !is_number(line.a, u) {
        return Err(Lack::Node(u));
    }
    let parent = parent_of(line.b)?;
    ended(line.c)?;
    if u < parents.len() {
        parents[u] = parent;
    }
    Ok(Told {
        nodes: u + 1,
        ..told
    })
}

// Takes the words of a line `root NUMBER`, which stands once.
fn take_root(line: Line, told: Told) -> Result<Told, Lack> {
    if told.root.is_some() {
        return Err(Lack::OneRoot);
    }
    let root = number_of(line.a)?;
    ended(line.b)?;
    Ok(Told {
        root: Some(root),
        ..told
    })
}

// The depth that a word names. The number that stands for the whole search in a file is none here: the whole search is named.
fn depth_of(word: Word) -> Result<u16, Lack> {
    match word {
        Word::Whole => Ok(Edition::WHOLE),
        Word::Number(depth) if depth < Word::MOST => Ok(depth),
        _ => Err(Lack::Depth),
    }
}

// Takes the words of a line `depth NUMBER` or `depth whole`, which stands once.
fn take_depth(line: Line, told: Told) -> Result<Told, Lack> {
    if told.depth.is_some() {
        return Err(Lack::OneDepth);
    }
    let depth = depth_of(line.a)?;
    ended(line.b)?;
    Ok(Told {
        depth: Some(depth),
        ..told
    })
}

// Takes a line. One without words says nothing.
fn take_line(line: Line, told: Told, links: &mut [u16], parents: &mut [u16]) -> Result<Told, Lack> {
    match line.kind {
        Word::Link => take_link(line, told, links),
        Word::Node => take_node(line, told, parents),
        Word::Root => take_root(line, told),
        Word::Depth => take_depth(line, told),
        Word::End => Ok(told),
        _ => Err(Lack::Kind),
    }
}

// Says what a line lacked.
fn say_lack(name: &[u8], line: usize, lack: Lack) -> bool {
    let most = Word::MOST as usize;
    match lack {
        Lack::Kind => desk::expected(name, line, b"`root`, `depth`, `link` or `node`"),
        Lack::Number => desk::expected_number(name, line, b"a number up to ", most),
        Lack::Depth => desk::expected_number(name, line, b"`whole` or a number below ", most),
        Lack::Service => desk::expected(name, line, b"`up` or `down`"),
        Lack::End => desk::expected(name, line, b"the end of the line"),
        Lack::Link(e) => desk::expected_number(name, line, b"link ", e),
        Lack::Node(u) => desk::expected_number(name, line, b"node ", u),
        Lack::Parent => desk::expected(name, line, b"the number of a link, or `root`"),
        Lack::OneRoot => desk::expected(name, line, b"no second root"),
        Lack::OneDepth => desk::expected(name, line, b"no second depth"),
        Lack::FewLinks => desk::expected_number(name, line, b"no more links than ", Memory::LINKS),
        Lack::FewNodes => desk::expected_number(name, line, b"no more nodes than ", Memory::NODES),
    }
}

// Makes the file of the network, or says why it is refused.
fn store<R: Files + Print + Alloc>(
    rt: &R,
    from: &[u8],
    to: &[u8],
    links: &[u16],
    parents: &[u16],
    aim: Aim,
) -> bool {
    let mut file = [0u8; Desk::FILE];
    match archive::write(links, parents, aim, &mut file) {
        Ok(size) => desk::write_new(rt, to, &file, size, b"", 0),
        Err(refusal) => desk::refused(from, refusal),
    }
}

// Makes the file of what was told, where a root and a depth were.
fn finish<R: Files + Print + Alloc>(
    rt: &R,
    from: &[u8],
    to: &[u8],
    told: Told,
    links: &[u16],
    parents: &[u16],
) -> bool {
    let Some(root) = told.root else {
        return desk::complain(from, b"expected a line `root NUMBER`");
    };
    let Some(depth) = told.depth else {
        return desk::complain(from, b"expected a line `depth NUMBER` or `depth whole`");
    };
    let held = network::first_links(links, told.links);
    let named = rows::first(parents, told.nodes);
    store(rt, from, to, held, named, Aim { root, depth })
}

// Takes the lines one after the other, and makes the file of what they told; says what the first lacks that lacks something.
fn take_text<R: Files + Print + Alloc>(
    rt: &R,
    from: &[u8],
    to: &[u8],
    text: &[u8],
    links: &mut [u16],
    parents: &mut [u16],
) -> bool {
    if !desk::text_fits(from, text) {
        return false;
    }
    let mut told = Told {
        nodes: 0,
        links: 0,
        root: None,
        depth: None,
    };
    let mut cursor = Cursor::begin(text);
    while cursor.at < text.len() {
        if cursor.is_torn(text) {
            return desk::torn(from, cursor.number);
        }
        let step = cursor.next_line(text);
        match take_line(step.line, told, links, parents) {
            Ok(more) => told = more,
            Err(lack) => return say_lack(from, cursor.number, lack),
        }
        cursor = step.next;
    }
    finish(rt, from, to, told, links, parents)
}

// Makes the file of a text.
fn take_bytes<R: Files + Print + Alloc>(rt: &R, from: &[u8], to: &[u8], text: &[u8]) -> bool {
    let mut links = [0u16; Memory::LINK_ROW];
    let mut parents = [0u16; Memory::NODES];
    take_text(rt, from, to, text, &mut links, &mut parents)
}

// Makes the file `to` of the text in the file `from`.
fn run<R: Files + Print + Alloc>(rt: &R, from: &[u8], to: &[u8]) -> bool {
    let mut row = desk::text_room();
    match desk::read(rt, from, &mut row) {
        Some(size) if size <= row.len() => take_bytes(rt, from, to, &row[..size]),
        _ => false,
    }
}

fn main(rt: HostRuntime) {
    if desk::arg_count(&rt) != 3 {
        desk::usage(b"swapfile TEXT FILE");
        return;
    }
    let mut first = [0u8; Desk::NAME];
    let mut second = [0u8; Desk::NAME];
    let from = desk::arg(&rt, 1, &mut first);
    let to = desk::arg(&rt, 2, &mut second);
    if desk::is_name(b"TEXT", from) && desk::is_name(b"FILE", to) {
        run(&rt, &first[..from], &second[..to]);
    }
}

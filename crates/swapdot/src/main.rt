// swapdot FILE [sum|incr|max]: draws the network of a file for Graphviz, with the swap links of one measure, sum where none is
// named, as arrows from their lower ends.
#![tactic(auto)]

use archive::Header;
use desk::Desk;
use edition::{Edition, Entry, Measure, Memory, Search, Swap};
use network::Link;
use std::io::Print;
use std::rt::Files;

// Bytes of the buffer that what is printed waits in: it holds the title and the longest line of every node and link, so that
// all is printed at once and it is seen whether it was.
const OUT: usize = 80 * (2 + Memory::NODES + Memory::LINKS);

// Prints the name of a measure.
fn put_measure(out: &mut [u8], at: usize, measure: Measure) -> usize {
    match measure {
        Measure::Sum => output::put(out, at, b"sum"),
        Measure::Incr => output::put(out, at, b"incr"),
        Measure::Max => output::put(out, at, b"max"),
    }
}

// Prints the first lines: the title with the root, the depth and the measure.
fn put_title(out: &mut [u8], at: usize, search: Search, measure: Measure) -> usize {
    let opened = output::put(out, at, b"graph swaps {\n    label = \"root");
    let root = output::put_field(out, opened, search.root as u64);
    let named = output::put(out, root, b", depth");
    let depth = listing::put_depth(out, named, search.depth);
    let by = output::put(out, depth, b", swap links by ");
    let told = put_measure(out, by, measure);
    output::put(
        out,
        told,
        b", arrows from the end that is cut off\";\n    node [shape = circle];\n",
    )
}

// Prints what is said of a node behind its number: its swap link, or that it has none.
fn put_state(out: &mut [u8], at: usize, entry: Entry, measure: Measure) -> usize {
    match entry.state {
        Edition::ROOT => output::put(out, at, b"\\nroot\", shape = doublecircle];\n"),
        Edition::SWAP => {
            let swap = edition::swap_by(entry, measure);
            let named = output::put(out, at, b"\\nswap");
            let linked = output::put_field(out, named, swap.link);
            output::put(out, linked, b"\"];\n")
        }
        Edition::NONE => output::put(
            out,
            at,
            b"\\nnone\", style = filled, fillcolor = orange];\n",
        ),
        _ => output::put(out, at, b"\\nbridge\", style = filled, fillcolor = red];\n"),
    }
}

// Prints the number of node x and the begin of its label, which has the number too.
fn put_name(out: &mut [u8], at: usize, x: usize) -> usize {
    let begun = output::put(out, at, b"    ");
    let named = output::put_number(out, begun, x as u64);
    let labelled = output::put(out, named, b" [label = \"");
    output::put_number(out, labelled, x as u64)
}

// Prints the line of node x. One without a swap link, which is unprotected, is filled.
fn put_node(out: &mut [u8], at: usize, entries: &[u64], x: usize, measure: Measure) -> usize {
    let named = put_name(out, at, x);
    put_state(out, named, entries::entry_at(entries, x), measure)
}

// Prints the lines of all nodes.
fn put_nodes(out: &mut [u8], at: usize, entries: &[u64], n: usize, measure: Measure) -> usize {
    let mut waits = at;
    for x in 0..n {
        waits = put_node(out, waits, entries, x, measure);
    }
    waits
}

// The swap link of node x; none where it has none.
fn swap_of(entries: &[u64], x: usize, measure: Measure) -> Swap {
    let entry = entries::entry_at(entries, x);
    if entry.state != Edition::SWAP {
        return Edition::no_swap();
    }
    edition::swap_by(entry, measure)
}

// Writes the swap link of each node that the row has.
fn fill_swaps(entries: &[u64], measure: Measure, swaps: &mut [Swap]) {
    for x in 0..swaps.len() {
        swaps[x] = swap_of(entries, x, measure);
    }
}

// Whether link e is the swap link of a node for which its end with this mark is the lower one.
fn is_lower(swaps: &[Swap], e: usize, mark: u64) -> bool {
    for swap in swaps {
        if swap.link == e as u64 && swap.lower == mark {
            return true;
        }
    }
    false
}

// Prints how a link outside the tree is drawn, by whether its first end is the lower one for a node, and whether its second is:
// a swap link blue, as an arrow from its lower end, or both ways; any other grey.
fn put_spare(out: &mut [u8], at: usize, first: bool, second: bool) -> usize {
    match (first, second) {
        (true, true) => output::put(out, at, b"color = blue, dir = both"),
        (true, false) => output::put(out, at, b"color = blue, dir = forward"),
        (false, true) => output::put(out, at, b"color = blue, dir = back"),
        (false, false) => output::put(out, at, b"color = grey"),
    }
}

// Prints how a link is drawn: a withdrawn one dotted, a tree link thick, any other thin, as a swap link where it is one.
fn put_style(
    out: &mut [u8],
    at: usize,
    link: Link,
    parents: &[u16],
    swaps: &[Swap],
    e: usize,
) -> usize {
    if !network::in_service(link) {
        return output::put(out, at, b"style = dotted");
    }
    if network::is_parent(parents, e) {
        return output::put(out, at, b"penwidth = 3");
    }
    let first = is_lower(swaps, e, Edition::FIRST);
    let second = is_lower(swaps, e, Edition::SECOND);
    put_spare(out, at, first, second)
}

// Prints the ends of a link and the begin of its label.
fn put_ends(out: &mut [u8], at: usize, link: Link) -> usize {
    let begun = output::put(out, at, b"    ");
    let first = output::put_number(out, begun, link.first as u64);
    let joined = output::put(out, first, b" -- ");
    let second = output::put_number(out, joined, link.second as u64);
    output::put(out, second, b" [label = \"")
}

// Prints the number of a link and its length, and ends the label.
fn put_label(out: &mut [u8], at: usize, link: Link, e: usize) -> usize {
    let number = output::put_number(out, at, e as u64);
    let colon = output::put(out, number, b":");
    let length = output::put_field(out, colon, link.length as u64);
    output::put(out, length, b"\", ")
}

// Prints the line of link e: its ends, its number and length, and how it is drawn.
fn put_link(
    out: &mut [u8],
    at: usize,
    links: &[u16],
    parents: &[u16],
    swaps: &[Swap],
    e: usize,
) -> usize {
    let link = network::link_at(links, e);
    let ends = put_ends(out, at, link);
    let labelled = put_label(out, ends, link, e);
    let drawn = put_style(out, labelled, link, parents, swaps, e);
    output::put(out, drawn, b"];\n")
}

// Prints the lines of the first m links.
fn put_links(
    out: &mut [u8],
    at: usize,
    links: &[u16],
    parents: &[u16],
    swaps: &[Swap],
    m: usize,
) -> usize {
    let mut waits = at;
    for e in 0..m {
        waits = put_link(out, waits, links, parents, swaps, e);
    }
    waits
}

// Draws an accepted file, and answers whether all of it was printed.
fn draw<R: Print>(
    rt: &R,
    header: Header,
    links: &[u16],
    parents: &[u16],
    entries: &[u64],
    measure: Measure,
) -> bool {
    let mut out = [0u8; OUT];
    let mut swaps = [Edition::no_swap(); Memory::NODES];
    fill_swaps(entries, measure, &mut swaps);
    let crossed = &swaps[..header.nodes.min(Memory::NODES)];
    let held = rows::first(parents, header.nodes);
    let titled = put_title(&mut out, 0, header.search, measure);
    let nodes = put_nodes(&mut out, titled, entries, header.nodes, measure);
    let drawn = put_links(&mut out, nodes, links, held, crossed, header.links);
    let ended = output::put(&mut out, drawn, b"}\n");
    desk::print(rt, &out, ended)
}

// Draws a file, or says why it is refused.
fn draw_file<R: Print>(rt: &R, name: &[u8], file: &[u8], measure: Measure) -> bool {
    let mut links = [0u16; Memory::LINK_ROW];
    let mut parents = [0u16; Memory::NODES];
    let mut entries = [0u64; Memory::ENTRY_ROW];
    match archive::read(file, &mut links, &mut parents, &mut entries) {
        Ok(header) => draw(rt, header, &links, &parents, &entries, measure),
        Err(refusal) => desk::refused(name, refusal),
    }
}

// Draws the file of a name.
fn run<R: Files + Print>(rt: &R, name: &[u8], measure: Measure) -> bool {
    let mut row = [0u8; Desk::FILE + 1];
    let Some(size) = desk::read(rt, name, &mut row) else {
        return false;
    };
    desk::file_fits(name, size) && draw_file(rt, name, &row[..size], measure)
}

// The measure that a word names.
fn measure_of(word: &[u8]) -> Option<Measure> {
    if text::is_word(word, b"sum") {
        return Some(Measure::Sum);
    }
    if text::is_word(word, b"incr") {
        return Some(Measure::Incr);
    }
    if text::is_word(word, b"max") {
        return Some(Measure::Max);
    }
    None
}

// Draws the file of a name by the measure of a word, which has no bytes where it is too long for any name.
fn run_by<R: Files + Print>(rt: &R, name: &[u8], word: &[u8]) -> bool {
    if word.is_empty() {
        return desk::complain(b"the measure", b"expected `sum`, `incr` or `max`");
    }
    let Some(measure) = measure_of(word) else {
        return desk::complain(word, b"expected `sum`, `incr` or `max`");
    };
    run(rt, name, measure)
}

fn main(rt: HostRuntime) {
    let mut first = [0u8; Desk::NAME];
    let mut second = [0u8; Desk::NAME];
    let words = desk::arg_count(&rt);
    if words < 2 || 3 < words {
        desk::usage(b"swapdot FILE [sum|incr|max]");
        return;
    }
    let name = desk::arg(&rt, 1, &mut first);
    let word = desk::arg(&rt, 2, &mut second);
    if !desk::is_name(b"FILE", name) {
        return;
    }
    if words == 2 {
        run(&rt, &first[..name], Measure::Sum);
        return;
    }
    run_by(&rt, &first[..name], &second[..word]);
}

// The library that `bench/stack` measures: calls of the layers as functions for C, over numbers and lent rows. What a call
// answers is mixed into one number, so that no part of it is left out. The functions promise no more than that they do nothing
// undefined and end.
#![tactic(auto)]

use archive::Header;
use edition::{Aim, Change, Edition, Entry, Measure, Memory, Refusal, Search, Swap};
use forward::{Applies, Ask};
use network::{Link, Network};
use tree::Climb;

// A search by tie rule 1, under which more is called than under rule 0.
fn nearer(root: u16, depth: u16) -> Search {
    Search {
        root,
        depth,
        rule: Memory::NEARER,
    }
}

// A network in lent rows, with a search by that rule.
fn lent<'l, 'p>(links: &'l [u16], parents: &'p [u16], root: u16, depth: u16) -> Network<'l, 'p> {
    Network {
        links,
        parents,
        search: nearer(root, depth),
    }
}

// Two numbers as one.
fn both(a: u64, b: u64) -> u64 {
    a.wrapping_add(b)
}

// A refusal as a number.
fn refused(refusal: Refusal) -> u64 {
    let why = refusal.why;
    both(edition::number(why) as u64, refusal.place as u64)
}

// A verdict as a number.
fn said(verdict: Result<(), Refusal>) -> u64 {
    match verdict {
        Ok(()) => 0,
        Err(refusal) => refused(refusal),
    }
}

// An answer as a number.
fn answered(answer: Result<u64, Refusal>) -> u64 {
    match answer {
        Ok(number) => number,
        Err(refusal) => refused(refusal),
    }
}

// A swap link as a number.
fn swapped(swap: Swap) -> u64 {
    both(both(swap.link, swap.cost), swap.lower)
}

// An entry as a number.
fn entered(entry: Entry) -> u64 {
    let links = both(swapped(entry.sum), swapped(entry.incr));
    both(both(entry.state, links), swapped(entry.max))
}

// What a header says as a number.
fn headed(head: Header) -> u64 {
    let search = head.search;
    let sizes = both(head.nodes as u64, head.links as u64);
    both(sizes, both(search.root as u64, search.depth as u64))
}

// A link as a number.
fn linked(link: Link) -> u64 {
    let ends = both(link.first as u64, link.second as u64);
    both(ends, both(link.length as u64, link.mark as u64))
}

#[unsafe(no_mangle)]
pub extern "C" fn painted_wide_at(row: &[u64], i: usize) -> u64 {
    rows::wide_at(row, i)
}

#[unsafe(no_mangle)]
pub extern "C" fn painted_link_at(links: &[u16], e: usize) -> u64 {
    linked(network::link_at(links, e))
}

#[unsafe(no_mangle)]
pub extern "C" fn painted_check_sizes(n: usize, m: usize, root: u16, depth: u16) -> u64 {
    said(network::check_sizes(Memory::limits(), n, m, nearer(root, depth)))
}

#[unsafe(no_mangle)]
pub extern "C" fn painted_check_ends(links: &[u16], n: usize) -> u64 {
    said(network::check_ends(links, n))
}

#[unsafe(no_mangle)]
pub extern "C" fn painted_check_marks(links: &[u16]) -> u64 {
    said(network::check_marks(links))
}

#[unsafe(no_mangle)]
pub extern "C" fn painted_check_parents(
    links: &[u16],
    parents: &[u16],
    root: u16,
    depth: u16,
) -> u64 {
    said(network::check_parents(lent(links, parents, root, depth)))
}

#[unsafe(no_mangle)]
pub extern "C" fn painted_check_block(kind: u16, number: u16, used: u16, b: &[u8]) -> u64 {
    said(block::check_block(kind, number, used, b))
}

#[unsafe(no_mangle)]
pub extern "C" fn painted_payload(kind: u16, number: u16, used: u16, b: &[u8]) -> u64 {
    block::payload(kind, number, used, b).len() as u64
}

#[unsafe(no_mangle)]
pub extern "C" fn painted_seal(kind: u8, number: u16, used: u16, b: &mut [u8]) -> u64 {
    block::seal(kind, number, used, b);
    0
}

#[unsafe(no_mangle)]
pub extern "C" fn painted_up(
    links: &[u16],
    parents: &[u16],
    root: u16,
    depth: u16,
    u: usize,
) -> u64 {
    tree::up(lent(links, parents, root, depth), u) as u64
}

#[unsafe(no_mangle)]
pub extern "C" fn painted_rise(
    links: &[u16],
    parents: &[u16],
    root: u16,
    depth: u16,
    u: usize,
) -> u64 {
    tree::rise(lent(links, parents, root, depth), u) as u64
}

#[unsafe(no_mangle)]
pub extern "C" fn painted_step(
    links: &[u16],
    parents: &[u16],
    root: u16,
    depth: u16,
    u: usize,
) -> u64 {
    let climb = Climb::begin(u).step(lent(links, parents, root, depth));
    both(both(climb.node as u64, climb.hops as u64), climb.dist)
}

#[unsafe(no_mangle)]
pub extern "C" fn painted_has_route(
    links: &[u16],
    parents: &[u16],
    root: u16,
    depth: u16,
    u: usize,
) -> u64 {
    tree::has_route(lent(links, parents, root, depth), u) as u64
}

#[unsafe(no_mangle)]
pub extern "C" fn painted_distances(
    links: &[u16],
    parents: &[u16],
    root: u16,
    depth: u16,
    row: &mut [u64],
) -> u64 {
    said(tree::distances(lent(links, parents, root, depth), row))
}

#[unsafe(no_mangle)]
pub extern "C" fn painted_check_way(
    links: &[u16],
    parents: &[u16],
    root: u16,
    depth: u16,
    u: usize,
) -> u64 {
    said(tree::check_way(lent(links, parents, root, depth), u))
}

#[unsafe(no_mangle)]
pub extern "C" fn painted_route(
    links: &[u16],
    parents: &[u16],
    root: u16,
    depth: u16,
    u: usize,
    row: &mut [usize],
) -> u64 {
    answered(tree::route(lent(links, parents, root, depth), u, row))
}

#[unsafe(no_mangle)]
pub extern "C" fn painted_meet_of(
    links: &[u16],
    parents: &[u16],
    root: u16,
    depth: u16,
    u: usize,
    z: usize,
) -> u64 {
    answered(tree::meet_of(lent(links, parents, root, depth), u, z))
}

#[unsafe(no_mangle)]
pub extern "C" fn painted_tree_distance(
    links: &[u16],
    parents: &[u16],
    root: u16,
    depth: u16,
    u: usize,
    z: usize,
) -> u64 {
    answered(tree::tree_distance(lent(links, parents, root, depth), u, z))
}

#[unsafe(no_mangle)]
pub extern "C" fn painted_put_header(
    bytes: &mut [u8],
    at: usize,
    n: u16,
    m: u16,
    root: u16,
    depth: u16,
) -> u64 {
    record::put_header(bytes, at, n, m, nearer(root, depth));
    0
}

#[unsafe(no_mangle)]
pub extern "C" fn painted_put_link(
    bytes: &mut [u8],
    at: usize,
    first: u16,
    second: u16,
    length: u16,
    mark: u16,
) -> u64 {
    record::put_link(
        bytes,
        at,
        Link {
            first,
            second,
            length,
            mark,
        },
    );
    0
}

#[unsafe(no_mangle)]
pub extern "C" fn painted_put_entry(
    bytes: &mut [u8],
    at: usize,
    parent: u16,
    state: u64,
    link: u64,
    cost: u64,
) -> u64 {
    let swap = Swap {
        link,
        cost,
        lower: Edition::FIRST,
    };
    let entry = Entry {
        state,
        sum: swap,
        incr: swap,
        max: swap,
    };
    record::put_entry(bytes, at, parent, entry);
    0
}

#[unsafe(no_mangle)]
pub extern "C" fn painted_survey(
    links: &[u16],
    parents: &[u16],
    root: u16,
    depth: u16,
    row: &mut [u64],
) -> u64 {
    said(survey::distances(lent(links, parents, root, depth), row))
}

#[unsafe(no_mangle)]
pub extern "C" fn painted_fill(
    links: &[u16],
    parents: &[u16],
    root: u16,
    depth: u16,
    survey: &mut [u64],
) -> u64 {
    said(survey::fill(lent(links, parents, root, depth), survey))
}

#[unsafe(no_mangle)]
pub extern "C" fn painted_survey_network(
    links: &[u16],
    parents: &[u16],
    root: u16,
    depth: u16,
    survey: &mut [u64],
) -> u64 {
    said(sound::survey_network(lent(links, parents, root, depth), survey))
}

#[unsafe(no_mangle)]
pub extern "C" fn painted_check_network(
    links: &[u16],
    parents: &[u16],
    root: u16,
    depth: u16,
) -> u64 {
    match sound::check_network(lent(links, parents, root, depth)) {
        Ok(sizes) => both(sizes.nodes as u64, sizes.links as u64),
        Err(refusal) => refused(refusal),
    }
}

#[unsafe(no_mangle)]
pub extern "C" fn painted_check_table(
    links: &[u16],
    parents: &[u16],
    root: u16,
    depth: u16,
    entries: &[u64],
) -> u64 {
    said(table::check_table(lent(links, parents, root, depth), entries))
}

#[unsafe(no_mangle)]
pub extern "C" fn painted_refresh(
    links: &[u16],
    parents: &[u16],
    root: u16,
    depth: u16,
    marks: &[u64],
    entries: &mut [u64],
) -> u64 {
    said(table::refresh(lent(links, parents, root, depth), marks, entries))
}

#[unsafe(no_mangle)]
pub extern "C" fn painted_table(
    links: &[u16],
    parents: &[u16],
    root: u16,
    depth: u16,
    entries: &mut [u64],
) -> u64 {
    said(table::table(lent(links, parents, root, depth), entries))
}

#[unsafe(no_mangle)]
pub extern "C" fn painted_check_entry(
    links: &[u16],
    parents: &[u16],
    root: u16,
    depth: u16,
    x: usize,
) -> u64 {
    said(table::check_entry(lent(links, parents, root, depth), x))
}

#[unsafe(no_mangle)]
pub extern "C" fn painted_entry_of(
    links: &[u16],
    parents: &[u16],
    root: u16,
    depth: u16,
    x: usize,
) -> u64 {
    match table::entry_of(lent(links, parents, root, depth), x) {
        Ok(entry) => entered(entry),
        Err(refusal) => refused(refusal),
    }
}

#[unsafe(no_mangle)]
pub extern "C" fn painted_check_write(
    links: &[u16],
    parents: &[u16],
    root: u16,
    depth: u16,
    file: &[u8],
) -> u64 {
    said(archive::check_write(links, parents, Aim { root, depth }, file))
}

#[unsafe(no_mangle)]
pub extern "C" fn painted_write(
    links: &[u16],
    parents: &[u16],
    root: u16,
    depth: u16,
    file: &mut [u8],
) -> u64 {
    match archive::write(links, parents, Aim { root, depth }, file) {
        Ok(bytes) => bytes as u64,
        Err(refusal) => refused(refusal),
    }
}

#[unsafe(no_mangle)]
pub extern "C" fn painted_check_read(
    file: &[u8],
    links: &[u16],
    parents: &[u16],
    entries: &[u64],
) -> u64 {
    said(archive::check_read(file, links, parents, entries))
}

#[unsafe(no_mangle)]
pub extern "C" fn painted_read(
    file: &[u8],
    links: &mut [u16],
    parents: &mut [u16],
    entries: &mut [u64],
) -> u64 {
    match archive::read(file, links, parents, entries) {
        Ok(head) => headed(head),
        Err(refusal) => refused(refusal),
    }
}

#[unsafe(no_mangle)]
pub extern "C" fn painted_check_change(
    links: &[u16],
    parents: &[u16],
    root: u16,
    depth: u16,
    entries: &[u64],
    link: u16,
    mark: u16,
    length: u16,
) -> u64 {
    let change = Change { link, mark, length };
    said(change::check_change(lent(links, parents, root, depth), entries, change))
}

#[unsafe(no_mangle)]
pub extern "C" fn painted_change(
    links: &mut [u16],
    parents: &[u16],
    root: u16,
    depth: u16,
    entries: &mut [u64],
    link: u16,
    mark: u16,
    length: u16,
) -> u64 {
    let change = Change { link, mark, length };
    said(change::change(links, parents, nearer(root, depth), entries, change))
}

#[unsafe(no_mangle)]
pub extern "C" fn painted_unprotected_map(
    links: &[u16],
    parents: &[u16],
    root: u16,
    depth: u16,
    words: &mut [u64],
) -> u64 {
    match map::unprotected_map(lent(links, parents, root, depth), words) {
        Ok(told) => both(told.count as u64, told.lowest as u64),
        Err(refusal) => refused(refusal),
    }
}

#[unsafe(no_mangle)]
pub extern "C" fn painted_forward_fill(
    links: &[u16],
    parents: &[u16],
    root: u16,
    depth: u16,
    start: u16,
    failed: u16,
    ordinary: &mut [u16],
    detour: &mut [u16],
) -> u64 {
    let ask = Ask {
        start,
        failed,
        measure: Measure::Max,
    };
    match forward::fill(lent(links, parents, root, depth), ask, ordinary, detour) {
        Ok(Applies::Ordinary(way) | Applies::Detour(way)) => both(way.nodes as u64, way.length),
        Err(refusal) => refused(refusal),
    }
}

#[unsafe(no_mangle)]
pub extern "C" fn painted_forward(
    links: &[u16],
    parents: &[u16],
    root: u16,
    depth: u16,
    start: u16,
    failed: u16,
    ordinary: &mut [u16],
    detour: &mut [u16],
) -> u64 {
    let ask = Ask {
        start,
        failed,
        measure: Measure::Max,
    };
    let mut number = 0;
    let mut place = 0;
    let part = forward::forward(
        lent(links, parents, root, depth),
        ask,
        ordinary,
        detour,
        &mut number,
        &mut place,
    );
    let nodes = part.len() as u64;
    both(nodes, both(number as u64, place as u64))
}

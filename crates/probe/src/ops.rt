// The table of ops. An op is one function over rows and numbers of the head, and answers how much waits to be printed. It is
// added by its range in `is_op` and its call in `answer_network` or `answer_bytes`. One with rows of its own is not inlined, so that the
// stack holds the rows of one op at a time; nor is `answer`, so that it holds none before an op is known.
ghost use Rattle.std.specs.Prelude.{◌≡◌, ◌≤◌, length};
ghost use Rattle.probe.specs.Limits.{is_op, takes_bytes};

use crate::input::Head;
use edition::{Change, Measure};
use forward::Ask;
use network::Network;
use probe_files::{blocks, files, reading};
use probe_network::{changes, checking, forwards, maps, routes, single, tables};

pub const CHECK: u16 = 1;

pub const TABLE: u16 = 2;

pub const MAP: u16 = 3;

pub const CHANGE: u16 = 4;

pub const CHANGE_UNFILLED: u16 = 5;

pub const WRITE: u16 = 6;

pub const READ: u16 = 7;

pub const PAYLOAD: u16 = 8;

pub const FORWARD: u16 = 9;

// The ops of the project's own.
pub const ROUTE: u16 = 101;

pub const DISTANCE: u16 = 102;

pub const MEET: u16 = 103;

pub const ENTRY: u16 = 104;

pub const NODE: u16 = 105;

// Whether the op is in the probe's table.
#[tactic(auto, unfolding(crate::specs::Limits::is_op))]
pub fn is_op(op: u16) -> bool
    ensures { result ≡ is_op op }
{
    matches!(op, CHECK..=FORWARD | ROUTE..=NODE)
}

// Whether bytes follow the parents, not link numbers.
#[tactic(auto, unfolding(crate::specs::Limits::takes_bytes))]
pub fn takes_bytes(op: u16) -> bool
    ensures { result ≡ takes_bytes op }
{
    matches!(op, READ | PAYLOAD)
}

// The change that a head names: of link a to mark b and length c.
fn change_of(head: Head) -> Change {
    Change {
        link: head.a,
        mark: head.b,
        length: head.c,
    }
}

// The measure that a word names: 0 sum, 1 incr, 2 max, and a word over 2 counts modulo 3.
fn measure_of(word: u16) -> Measure {
    match word % 3 {
        0 => Measure::Sum,
        1 => Measure::Incr,
        _ => Measure::Max,
    }
}

// What a head asks of the forwarder: start a, failed node b, measure c.
fn ask_of(head: Head) -> Ask {
    Ask {
        start: head.a,
        failed: head.b,
        measure: measure_of(head.c),
    }
}

// Prints what an op on a network answers.
fn answer_network(head: Head, net: Network, out: &mut [u8], at: usize) -> usize
    ensures { result ≤ length out.new }
{
    match head.op {
        CHECK => checking::check(net, out, at),
        TABLE => tables::table(net, head.room, out, at),
        MAP => maps::map(net, head.room, out, at),
        CHANGE => changes::change(net, change_of(head), true, head.room, out, at),
        CHANGE_UNFILLED => changes::change(net, change_of(head), false, head.room, out, at),
        WRITE => files::write(net, head.room, out, at),
        FORWARD => forwards::forward(net, ask_of(head), head.ordinary, head.detour, out, at),
        ROUTE => routes::route(net, head.a, head.room, out, at),
        DISTANCE => routes::distance(net, head.a, head.b, out, at),
        MEET => routes::meet(net, head.a, head.b, out, at),
        ENTRY => single::entry(net, head.a, out, at),
        _ => single::node(net, head.a, out, at),
    }
}

// Prints what an op on bytes answers.
fn answer_bytes(head: Head, bytes: &[u8], out: &mut [u8], at: usize) -> usize
    ensures { result ≤ length out.new }
{
    if head.op == READ {
        return reading::read(bytes, head.a, head.b, head.c, out, at);
    }
    blocks::payload(head.a, head.b, head.c, bytes, out, at)
}

// Prints what the head's op answers. The rows begin with what was read.
#[inline(never)]
pub fn answer(
    head: Head,
    links: &[u16],
    parents: &[u16],
    bytes: &[u8],
    out: &mut [u8],
    at: usize,
) -> usize
    ensures { result ≤ length out.new }
{
    let rest = head.rest;
    if !takes_bytes(head.op) {
        let net = Network {
            links: rows::first(links, rest),
            parents: rows::first(parents, head.parents),
            search: head.search,
        };
        return answer_network(head, net, out, at);
    }
    if bytes.len() < rest {
        return output::flush(out, at);
    }
    answer_bytes(head, &bytes[..rest], out, at)
}

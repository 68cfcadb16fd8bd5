// The library from the outside: reads cases from standard input, and prints what the public functions answer and what they
// leave in the lent rows.
#![tactic(auto)]

mod input;
mod limits;
mod ops;

use input::Head;
use limits::{CASES, OUT};
use probe_rows::limits::{BYTES, LINKS, PARENTS};
use std::ops::ControlFlow;

// Reads the rest of a case and prints what it answers. How much then waits to be printed, and whether the program goes on or ends. An
// op that is not in the table is told before the limits; an input that ends inside a case prints nothing for it.
fn answer_case(
    head: Head,
    links: &mut [u16],
    parents: &mut [u16],
    bytes: &mut [u8],
    out: &mut [u8],
    at: usize,
) -> ControlFlow<usize, usize> {
    if !ops::is_op(head.op) {
        return ControlFlow::Break(output::put(out, at, b"unknown\n"));
    }
    if input::is_over(head) {
        return ControlFlow::Break(output::put(out, at, b"too long\n"));
    }
    if !input::read_rows(head, links, parents, bytes) {
        return ControlFlow::Break(at);
    }
    ControlFlow::Continue(ops::answer(head, links, parents, bytes, out, at))
}

// Reads the next case and prints what it answers.
fn next_case(
    links: &mut [u16],
    parents: &mut [u16],
    bytes: &mut [u8],
    out: &mut [u8],
    at: usize,
) -> ControlFlow<usize, usize> {
    match input::read_head(bytes) {
        Some(head) => answer_case(head, links, parents, bytes, out, at),
        None => ControlFlow::Break(at),
    }
}

// Reads cases until one ends the program, and prints what they answer. It ends after `CASES` of them too.
fn run(links: &mut [u16], parents: &mut [u16], bytes: &mut [u8], out: &mut [u8]) {
    let mut at = 0;
    for _ in 0..CASES {
        match next_case(links, parents, bytes, out, at) {
            ControlFlow::Continue(waits) => at = waits,
            ControlFlow::Break(waits) => {
                at = waits;
                break;
            }
        }
    }
    output::flush(out, at);
}

fn main() {
    let mut links = [0u16; LINKS];
    let mut parents = [0u16; PARENTS];
    let mut bytes = [0u8; BYTES];
    let mut out = [0u8; OUT];
    run(&mut links, &mut parents, &mut bytes, &mut out);
}

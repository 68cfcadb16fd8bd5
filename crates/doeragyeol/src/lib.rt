// The library for C: ten functions over numbers and lent rows, each of which answers one word, 0 or the refusal; and the
// version.
#![tactic(auto)]

ghost use Rattle.std.specs.Prelude.{◌≡◌, [], ◌∷◌, ◌≤◌, length};
ghost use Rattle.edition.specs.declared.Why.TheVariants.{NoRoom};
ghost use Rattle.edition.specs.Refusals.{refused};
ghost use Rattle.rows.specs.First.{firstly};
ghost use Rattle.network.specs.Network.{lent};
ghost use Rattle.sound.specs.Sound.{net_verdict};
ghost use Rattle.table.specs.Table.{table_verdict, table_row};
ghost use Rattle.change.specs.Change.{change_verdict, Lent, changed};
ghost use Rattle.edition.specs.declared.Change.{Change};
ghost use Rattle.edition.specs.declared.Measure.TheVariants.{Sum, Incr, Max};
ghost use Rattle.forward.specs.declared.Ask.{Ask};
ghost use Rattle.doeragyeol.specs.Word.{version, word_of, answered};
ghost use Rattle.doeragyeol.specs.Calls.{lent_net, filed_net, lent_rows, check_said, sizes_row, map_said, words_row, open_row, write_said, file_row};
ghost use Rattle.doeragyeol.specs.Calls.{length_row};
ghost use Rattle.doeragyeol.specs.Calls.{read_said, rows_left, header_row, forward_said, ordinary_left, detour_left, way_row};
ghost use Rattle.doeragyeol.specs.Calls.{tree_net, distance_said, apart_row};

use edition::{Aim, Change, Measure, Memory, Refusal, Search, Why};
use forward::{Applies, Ask};
use network::Network;

// The version of the interface: what the header declares. A landing that changes that raises it, here and in the name below.
const VERSION: u32 = 6;

// The word of a call that is not refused.
const DONE: u32 = 0;

// The largest place that a word holds.
const PLACE_MOST: u32 = 0xffff;

// How many values the calls answer in a lent row.
const SIZES: usize = 2;

const TOLD: usize = 2;

const SIZE: usize = 1;

const HEADER: usize = 4;

const WAY: usize = 3;

const DISTANCE: usize = 1;

// Which row of the forwarder applies.
const ORDINARY: u64 = 0;

const DETOUR: u64 = 1;

// The word of a refusal; its place as far as a word holds it.
#[tactic(auto, unfolding(crate::specs::Word::word_of))]
fn refusal_word(refusal: Refusal) -> u32
    ensures { result ≡ word_of (Err refusal) }
{
    let place = refusal.place.min(PLACE_MOST as usize) as u32;
    edition::number(refusal.why) as u32 * (PLACE_MOST + 1) + place
}

// The word of 10 at place 0.
fn no_room_word() -> u32
    ensures { result ≡ word_of (refused NoRoom 0) }
{
    refusal_word(Refusal {
        why: Why::NoRoom,
        place: 0,
    })
}

// The word of a verdict.
#[tactic(auto, unfolding(crate::specs::Word::word_of))]
fn word(said: Result<(), Refusal>) -> u32
    ensures { result ≡ word_of said }
{
    match said {
        Ok(()) => DONE,
        Err(why) => refusal_word(why),
    }
}

// The word where a row for values is too short: the first refusal of the network, and else 10.
fn short_word(net: Network) -> u32
    ensures { let g = lent net.entry in
        result ≡ word_of (firstly (net_verdict g ∷ refused NoRoom 0 ∷ [])) }
{
    match sound::check_network(net) {
        Ok(_) => no_room_word(),
        Err(why) => refusal_word(why),
    }
}

// Puts values at the beginning of a row.
#[tactic(auto, unfolding(crate::specs::Word::answered))]
fn put(row: &mut [u64], values: &[u64])
    requires { length values.now ≤ length row.old }
    ensures { row.new ≡ answered values.now row.old }
{
    row[..values.len()].copy_from_slice(values);
}

// The version of the interface. The name ends with it, so that a caller made for another version does not link.
#[unsafe(no_mangle)]
pub extern "C" fn doeragyeol_version_6() -> u32
    ensures { result ≡ version }
{
    VERSION
}

// The check of a network and its tree. `sizes` gets how many nodes and links there are.
#[unsafe(no_mangle)]
pub extern "C" fn doeragyeol_check(
    links: &[u16],
    parents: &[u16],
    root: u16,
    depth: u16,
    rule: u16,
    sizes: &mut [u64],
) -> u32
    ensures { let g = lent_net links.now parents.now root depth rule in
        (result ≡ word_of (check_said g sizes.old))
        × (sizes.new ≡ sizes_row g sizes.old) }
{
    let search = Search { root, depth, rule };
    let net = Network {
        links,
        parents,
        search,
    };
    if sizes.len() < SIZES {
        return short_word(net);
    }
    match sound::check_network(net) {
        Ok(told) => {
            put(sizes, &[told.nodes as u64, told.links as u64]);
            DONE
        }
        Err(why) => refusal_word(why),
    }
}

// The table of all entries, into `entries`.
#[unsafe(no_mangle)]
pub extern "C" fn doeragyeol_table(
    links: &[u16],
    parents: &[u16],
    root: u16,
    depth: u16,
    rule: u16,
    entries: &mut [u64],
) -> u32
    ensures { let g = lent_net links.now parents.now root depth rule in
        (result ≡ word_of (table_verdict g entries.old))
        × (entries.new ≡ table_row g entries.old) }
{
    let search = Search { root, depth, rule };
    let net = Network {
        links,
        parents,
        search,
    };
    word(table::table(net, entries))
}

// The unprotected map, into `words`. `told` gets how many nodes are unprotected and the lowest of them.
#[unsafe(no_mangle)]
pub extern "C" fn doeragyeol_map(
    links: &[u16],
    parents: &[u16],
    root: u16,
    depth: u16,
    rule: u16,
    words: &mut [u64],
    told: &mut [u64],
) -> u32
    ensures { let g = lent_net links.now parents.now root depth rule in
        let words' = words.old in
        let told' = told.old in
        (result ≡ word_of (map_said g words' told'))
        × (words.new ≡ words_row g words' told')
        × (told.new ≡ open_row g words' told') }
{
    let search = Search { root, depth, rule };
    let net = Network {
        links,
        parents,
        search,
    };
    if told.len() < TOLD {
        return short_word(net);
    }
    match map::unprotected_map(net, words) {
        Ok(counted) => {
            put(told, &[counted.count as u64, counted.lowest as u64]);
            DONE
        }
        Err(why) => refusal_word(why),
    }
}

// The change of one link: its record in `links`, and the entries that it touches in `entries`.
#[unsafe(no_mangle)]
pub extern "C" fn doeragyeol_change(
    links: &mut [u16],
    parents: &[u16],
    root: u16,
    depth: u16,
    rule: u16,
    entries: &mut [u64],
    link: u16,
    mark: u16,
    length: u16,
) -> u32
    ensures { let lent : Lent = record { links = links.entry.now; entries = entries.old } in
        let g = lent_net links.entry.now parents.now root depth rule in
        let change : Change = record { link = link; mark = mark; length = length } in
        let after = changed parents.now (record { root = root; depth = depth; rule = rule }) change lent in
        (result ≡ word_of (change_verdict g entries.old change))
        × (links.exit.now ≡ after.links)
        × (entries.new ≡ after.entries) }
{
    let change = Change { link, mark, length };
    word(change::change(
        links,
        parents,
        Search { root, depth, rule },
        entries,
        change,
    ))
}

// The file of a network and depth, by tie rule 0, into `file`. `size` gets its length.
#[unsafe(no_mangle)]
pub extern "C" fn doeragyeol_write(
    links: &[u16],
    parents: &[u16],
    root: u16,
    depth: u16,
    file: &mut [u8],
    size: &mut [u64],
) -> u32
    ensures { let g = filed_net links.now parents.now root depth in
        let file' = file.old in
        let size' = size.old in
        (result ≡ word_of (write_said g file' size'))
        × (file.new ≡ file_row g file' size')
        × (size.new ≡ length_row g file' size') }
{
    if size.len() < SIZE {
        let rule = Memory::LOWEST;
        let search = Search { root, depth, rule };
        return short_word(Network {
            links,
            parents,
            search,
        });
    }
    match archive::write(links, parents, Aim { root, depth }, file) {
        Ok(bytes) => {
            put(size, &[bytes as u64]);
            DONE
        }
        Err(why) => refusal_word(why),
    }
}

// The rows of links, parents and entries that a file holds. `header` gets how many nodes and links there are, the root and the
// depth.
#[unsafe(no_mangle)]
pub extern "C" fn doeragyeol_read(
    file: &[u8],
    links: &mut [u16],
    parents: &mut [u16],
    entries: &mut [u64],
    header: &mut [u64],
) -> u32
    ensures { let rows = lent_rows links.old parents.old entries.old in
        let file' = file.now in
        let header' = header.old in
        let left = rows_left file' rows header' in
        (result ≡ word_of (read_said file' rows header'))
        × (links.new ≡ left.links)
        × (parents.new ≡ left.parents)
        × (entries.new ≡ left.entries)
        × (header.new ≡ header_row file' rows header') }
{
    if header.len() < HEADER {
        return word(archive::check_read(file, &links[0..0], &parents[0..0], &entries[0..0]));
    }
    match archive::read(file, links, parents, entries) {
        Ok(head) => {
            let Search { root, depth, .. } = head.search;
            put(
                header,
                &[
                    head.nodes as u64,
                    head.links as u64,
                    root as u64,
                    depth as u64,
                ],
            );
            DONE
        }
        Err(why) => refusal_word(why),
    }
}

// The list for what is asked, into the row that applies, and the word of that.
fn forward_word(
    net: Network,
    ask: Ask,
    ordinary: &mut [u16],
    detour: &mut [u16],
    way: &mut [u64],
) -> u32
    ensures { let g = lent net.entry in
        let o = ordinary.old in
        let d = detour.old in
        let way' = way.old in
        (result ≡ word_of (forward_said g ask o d way'))
        × (ordinary.new ≡ ordinary_left g ask o d way')
        × (detour.new ≡ detour_left g ask o d way')
        × (way.new ≡ way_row g ask o d way') }
{
    if way.len() < WAY {
        return short_word(net);
    }
    match forward::fill(net, ask, ordinary, detour) {
        Ok(Applies::Ordinary(it)) => {
            put(way, &[ORDINARY, it.nodes as u64, it.length]);
            DONE
        }
        Ok(Applies::Detour(it)) => {
            put(way, &[DETOUR, it.nodes as u64, it.length]);
            DONE
        }
        Err(why) => refusal_word(why),
    }
}

// The list from a start to the root while the tree link of a node is down, into the row that applies, by the swap link under sum.
// `way` gets which row that is, how many nodes the list has, and how long it is.
#[unsafe(no_mangle)]
pub extern "C" fn doeragyeol_forward_sum(
    links: &[u16],
    parents: &[u16],
    root: u16,
    depth: u16,
    rule: u16,
    start: u16,
    failed: u16,
    ordinary: &mut [u16],
    detour: &mut [u16],
    way: &mut [u64],
) -> u32
    ensures { let g = lent_net links.now parents.now root depth rule in
        let a : Ask = record { start = start; failed = failed; measure = Sum } in
        let o = ordinary.old in
        let d = detour.old in
        let way' = way.old in
        (result ≡ word_of (forward_said g a o d way'))
        × (ordinary.new ≡ ordinary_left g a o d way')
        × (detour.new ≡ detour_left g a o d way')
        × (way.new ≡ way_row g a o d way') }
{
    let search = Search { root, depth, rule };
    let net = Network {
        links,
        parents,
        search,
    };
    let ask = Ask {
        start,
        failed,
        measure: Measure::Sum,
    };
    forward_word(net, ask, ordinary, detour, way)
}

// The same by the swap link under incr.
#[unsafe(no_mangle)]
pub extern "C" fn doeragyeol_forward_incr(
    links: &[u16],
    parents: &[u16],
    root: u16,
    depth: u16,
    rule: u16,
    start: u16,
    failed: u16,
    ordinary: &mut [u16],
    detour: &mut [u16],
    way: &mut [u64],
) -> u32
    ensures { let g = lent_net links.now parents.now root depth rule in
        let a : Ask = record { start = start; failed = failed; measure = Incr } in
        let o = ordinary.old in
        let d = detour.old in
        let way' = way.old in
        (result ≡ word_of (forward_said g a o d way'))
        × (ordinary.new ≡ ordinary_left g a o d way')
        × (detour.new ≡ detour_left g a o d way')
        × (way.new ≡ way_row g a o d way') }
{
    let search = Search { root, depth, rule };
    let net = Network {
        links,
        parents,
        search,
    };
    let ask = Ask {
        start,
        failed,
        measure: Measure::Incr,
    };
    forward_word(net, ask, ordinary, detour, way)
}

// The same by the swap link under max.
#[unsafe(no_mangle)]
pub extern "C" fn doeragyeol_forward_max(
    links: &[u16],
    parents: &[u16],
    root: u16,
    depth: u16,
    rule: u16,
    start: u16,
    failed: u16,
    ordinary: &mut [u16],
    detour: &mut [u16],
    way: &mut [u64],
) -> u32
    ensures { let g = lent_net links.now parents.now root depth rule in
        let a : Ask = record { start = start; failed = failed; measure = Max } in
        let o = ordinary.old in
        let d = detour.old in
        let way' = way.old in
        (result ≡ word_of (forward_said g a o d way'))
        × (ordinary.new ≡ ordinary_left g a o d way')
        × (detour.new ≡ detour_left g a o d way')
        × (way.new ≡ way_row g a o d way') }
{
    let search = Search { root, depth, rule };
    let net = Network {
        links,
        parents,
        search,
    };
    let ask = Ask {
        start,
        failed,
        measure: Measure::Max,
    };
    forward_word(net, ask, ordinary, detour, way)
}

// The length of the tree path from one node to another. `distance` gets it. The tree has no depth and no tie rule.
#[unsafe(no_mangle)]
pub extern "C" fn doeragyeol_distance(
    links: &[u16],
    parents: &[u16],
    root: u16,
    from: u16,
    to: u16,
    distance: &mut [u64],
) -> u32
    ensures { let g = tree_net links.now parents.now root in
        (result ≡ word_of (distance_said g from to distance.old))
        × (distance.new ≡ apart_row g from to distance.old) }
{
    let search = Search {
        root,
        depth: 0,
        rule: 0,
    };
    let net = Network {
        links,
        parents,
        search,
    };
    match tree::tree_distance(net, from as usize, to as usize) {
        Ok(length) => {
            if distance.len() < DISTANCE {
                return no_room_word();
            }
            put(distance, &[length]);
            DONE
        }
        Err(why) => refusal_word(why),
    }
}

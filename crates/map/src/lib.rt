// The unprotected map: the nodes in states 2 and 3 as bits, worked out from network and depth and never from a lent table.
#![tactic(auto)]

ghost use Rattle.std.specs.Prelude.{◌≡◌, ◌+◌, ◌*◌, ◌<◌, ◌≤◌, length};
ghost use Rattle.edition.specs.Limits.{map_words};
ghost use Rattle.network.specs.Network.{lent};
ghost use Rattle.map.specs.Map.{map_answer, map_row};
ghost use Rattle.map.specs.Work.{open_by, word_by, words_by, ones_in, lowest_in, told_by, left_by};

use edition::{Edition, Memory, Refusal, Search, Why};
use network::Network;

// How many nodes are unprotected, and the lowest of them, 65,535 where there is none.
#[derive(Clone, Copy)]
pub struct Unprotected {
    pub count: u32,
    pub lowest: u16,
}

// Whether x, of n nodes, is in state 2 or 3 by a row of entries.
#[tactic(auto, unfolding(crate::specs::Work::open_by))]
fn is_open(entries: &[u64], n: usize, x: usize) -> bool
    ensures { result ≡ open_by entries.now n x }
{
    if n <= x {
        return false;
    }
    let e = entries::entry_at(entries, x);
    e.state == Edition::NONE || e.state == Edition::BRIDGE
}

// Word i of the map: bit j is 1 where node 64 * i + j is in state 2 or 3.
#[tactic(auto, unfolding(crate::specs::Work::word_by))]
fn word_of(entries: &[u64], n: usize, i: usize) -> u64
    requires { i < map_words }
    ensures { result ≡ word_by (open_by entries.now n) i }
{
    let mut word = 0;
    for j in 0..Memory::BITS {
        if is_open(entries, n, i * Memory::BITS + j) {
            word += 1 << j;
        }
    }
    word
}

// The words of the map, at the beginning of a row.
#[tactic(auto, unfolding(crate::specs::Work::words_by))]
fn fill_words(entries: &[u64], n: usize, words: &mut [u64])
    requires { map_words ≤ length words.old }
    ensures { words.new ≡ words_by (open_by entries.now n) words.old }
{
    for i in 0..Memory::WORDS {
        words[i] = word_of(entries, n, i);
    }
}

// The ones of the words.
#[tactic(auto, unfolding(rows::specs::Count::sum_to, crate::specs::Work::ones_in))]
fn count_of(words: &[u64]) -> u32
    requires { map_words ≤ length words.now }
    ensures { result ≡ ones_in words.now }
{
    let mut total = 0;
    for i in 0..Memory::WORDS {
        total += words[i].count_ones();
    }
    total
}

// The lowest one of the words, 65,535 where there is none.
fn lowest_of(words: &[u64]) -> u16
    ensures { result ≡ lowest_in words.now }
{
    for i in 0..Memory::WORDS {
        let word = rows::wide_at(words, i);
        if word != 0 {
            return (i * Memory::BITS) as u16 + word.trailing_zeros() as u16;
        }
    }
    Edition::no_node()
}

// The map of a table of n nodes, or 10 where fewer words are lent than the map has.
fn map_of(entries: &[u64], n: usize, words: &mut [u64]) -> Result<Unprotected, Refusal>
    ensures { (result ≡ told_by (open_by entries.now n) words.old)
        × (words.new ≡ left_by (open_by entries.now n) words.old) }
{
    if words.len() < Memory::WORDS {
        return Err(Refusal {
            why: Why::NoRoom,
            place: 0,
        });
    }
    fill_words(entries, n, words);
    Ok(Unprotected {
        count: count_of(words),
        lowest: lowest_of(words),
    })
}

// The unprotected map into a lent row: its eight words, their ones and the lowest of them. Nothing is written on a refusal, nor
// past the words.
#[tactic(auto, unfolding(network::specs::Network::net_of))]
pub fn unprotected_map(net: Network, words: &mut [u64]) -> Result<Unprotected, Refusal>
    ensures { let g = lent net.entry in
        (result ≡ map_answer g words.old)
        × (words.new ≡ map_row g words.old) }
{
    let mut entries = [0u64; Memory::ENTRY_ROW];
    table::table(net, &mut entries)?;
    map_of(&entries, net.parents.len(), words)
}

// Input as 16-bit words, the high byte first: a head of six words, as many parents and records of links as it says, and
// whatever else a program reads.
#![tactic(auto)]

ghost use Rattle.std.specs.Prelude.{◌≡◌, length};
ghost use Rattle.test_words.specs.Words.{word_in, words_in, head_in};

use edition::Search;

// Words of the head.
pub const HEAD: usize = 6;

// The head: how many nodes and links follow, the search, and one more number, which each program has its own use for.
#[derive(Clone, Copy)]
pub struct Head {
    pub nodes: usize,
    pub links: usize,
    pub search: Search,
    pub count: usize,
}

// Word i of the bytes; bytes past the end count as 0.
#[tactic(auto, unfolding(crate::specs::Words::word_in))]
pub fn word(bytes: &[u8], i: usize) -> u16
    ensures { result ≡ word_in bytes.now i }
{
    if bytes.len() / 2 < i {
        return 0;
    }
    numbers::two_at(bytes, 2 * i)
}

// The head that the bytes begin with.
#[tactic(auto, unfolding(crate::specs::Words::head_in))]
pub fn head_of(bytes: &[u8]) -> Head
    ensures { result ≡ head_in bytes.now }
{
    let search = Search {
        root: word(bytes, 2),
        depth: word(bytes, 3),
        rule: word(bytes, 5),
    };
    Head {
        nodes: word(bytes, 0) as usize,
        links: word(bytes, 1) as usize,
        search,
        count: word(bytes, 4) as usize,
    }
}

// Fills the row with the first words of the bytes.
pub fn decode(bytes: &[u8], row: &mut [u16])
    ensures { row.new ≡ words_in bytes.now (length row.old) }
{
    for i in 0..row.len() {
        row[i] = word(bytes, i);
    }
}

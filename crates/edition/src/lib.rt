// The edition's numbers and memory's, and the values that go in and out of every layer. All are plain and go by value.
#![tactic(auto)]

ghost use Rattle.std.specs.Prelude.{◌≡◌};
ghost use Rattle.edition.specs.Limits.{no_link, no_node, memory_limits};
ghost use Rattle.edition.specs.Stored.{edition_limits, aim_of, by_number};
ghost use Rattle.edition.specs.Refusals.{number_of};
ghost use Rattle.edition.specs.Entries.{no_swap, blank, swap_by};

// Why something is refused: a case for each number of SCOPE's list.
#[derive(Clone, Copy, PartialEq, Eq)]
pub enum Why {
    NodeCount,
    LinkCount,
    BadRoot,
    BadDepth,
    BadRule,
    BadEnds,
    BadMark,
    BadParent,
    NoRoute,
    NotShort,
    NoRoom,
    LinkMissing,
    TreeLink,
    BreaksShort,
    BadStart,
    BadFailed,
    NoSwap,
    BadLength,
    BadCheck,
    BadBlock,
    BadEntry,
}

// A refusal: why, and the place that SCOPE names for it.
#[derive(Clone, Copy, PartialEq, Eq)]
pub struct Refusal {
    pub why: Why,
    pub place: usize,
}

// The most nodes and links, and the deepest bounded search.
#[derive(Clone, Copy)]
pub struct Limits {
    pub nodes: usize,
    pub links: usize,
    pub depth: usize,
}

// The numbers that a caller names beside the rows of a network: the root, the depth, and the tie rule.
#[derive(Clone, Copy)]
pub struct Search {
    pub root: u16,
    pub depth: u16,
    pub rule: u16,
}

// The root and the depth alone, where there is no tie rule to name.
#[derive(Clone, Copy)]
pub struct Aim {
    pub root: u16,
    pub depth: u16,
}

impl Search {
    // Its root and depth alone.
    pub fn aim(self) -> Aim
        ensures { result ≡ aim_of self }
    {
        Aim {
            root: self.root,
            depth: self.depth,
        }
    }
}

impl Aim {
    // The search that they mean in an edition 1 file: by tie rule 0.
    pub fn by_number(self) -> Search
        ensures { result ≡ by_number self }
    {
        Search {
            root: self.root,
            depth: self.depth,
            rule: Memory::LOWEST,
        }
    }
}

// A change of one link: its number, and the service mark and length that it gets.
#[derive(Clone, Copy)]
pub struct Change {
    pub link: u16,
    pub mark: u16,
    pub length: u16,
}

// What is least: the sum of the new distances, the largest increase, or the largest new distance.
#[derive(Clone, Copy, PartialEq, Eq)]
pub enum Measure {
    Sum,
    Incr,
    Max,
}

// A swap link, its cost under one measure, and the mark of its lower end: 0 the link's first end, 1 its second.
#[derive(Clone, Copy, PartialEq, Eq)]
pub struct Swap {
    pub link: u64,
    pub cost: u64,
    pub lower: u64,
}

// An entry of the table: the state of a node's tree link, and its swap link under each measure.
#[derive(Clone, Copy, PartialEq, Eq)]
pub struct Entry {
    pub state: u64,
    pub sum: Swap,
    pub incr: Swap,
    pub max: Swap,
}

// Edition 1: what its files can hold, how they are laid out, and its marks. No other file of code writes these numbers.
#[derive(Clone, Copy)]
pub struct Edition {
    pub number: u8,
}

impl Edition {
    pub const NUMBER: u8 = 1;

    // The limits of a file.
    pub const NODES: usize = 512;

    pub const LINKS: usize = 2048;

    pub const DEPTH: usize = 510;

    // The mark 65,535: no link, no node, the whole search.
    pub const NO_LINK: u16 = 65535;

    pub const NO_NODE: u16 = 65535;

    pub const WHOLE: u16 = 65535;

    // The service marks.
    pub const SERVED: u16 = 1;

    pub const WITHDRAWN: u16 = 0;

    // The marks of a link's ends.
    pub const FIRST: u64 = 0;

    pub const SECOND: u64 = 1;

    // The states of an entry.
    pub const ROOT: u64 = 0;

    pub const SWAP: u64 = 1;

    pub const NONE: u64 = 2;

    pub const BRIDGE: u64 = 3;

    // Blocks and their kinds.
    pub const BLOCK_BYTES: usize = 512;

    pub const FRONT_BYTES: usize = 8;

    // The largest word that a block's check adds up.
    pub const WORD_MOST: u16 = 65535;

    pub const PAYLOAD_BYTES: usize = Edition::BLOCK_BYTES - Edition::FRONT_BYTES;

    pub const HEADER_KIND: u8 = 72;

    pub const LINKS_KIND: u8 = 76;

    pub const TABLE_KIND: u8 = 84;

    // Bytes a record, and records a block.
    pub const HEADER_BYTES: usize = 8;

    pub const LINK_BYTES: usize = 8;

    pub const ENTRY_BYTES: usize = 28;

    pub const HEADERS_A_BLOCK: usize = 1;

    pub const LINKS_A_BLOCK: usize = 63;

    pub const ENTRIES_A_BLOCK: usize = 18;

    // The longest file: no network within the limits has more blocks.
    pub const BLOCKS: usize = 63;

    pub const FILE_BYTES: usize = Edition::BLOCKS * Edition::BLOCK_BYTES;

    // What a file can hold.
    pub fn limits() -> Limits
        ensures { result ≡ edition_limits }
    {
        Limits {
            nodes: Edition::NODES,
            links: Edition::LINKS,
            depth: Edition::DEPTH,
        }
    }

    // The mark where a link is named and there is none.
    pub fn no_link() -> u16
        ensures { result ≡ no_link }
    {
        Edition::NO_LINK
    }

    // The mark where a node is named and there is none.
    pub fn no_node() -> u16
        ensures { result ≡ no_node }
    {
        Edition::NO_NODE
    }

    // No swap link: the number of no link, a cost of 0 and the mark 0.
    pub fn no_swap() -> Swap
        ensures { result ≡ no_swap }
    {
        Swap {
            link: Edition::no_link() as u64,
            cost: 0,
            lower: 0,
        }
    }

    // An entry without links, costs and marks.
    pub fn blank_entry(state: u64) -> Entry
        ensures { result ≡ blank state }
    {
        let none = Edition::no_swap();
        Entry {
            state,
            sum: none,
            incr: none,
            max: none,
        }
    }

    // The root's entry.
    pub fn root_entry() -> Entry
        ensures { result ≡ blank 0 }
    {
        Edition::blank_entry(Edition::ROOT)
    }
}

// What memory holds: its own limits, and how wide the records of its rows are.
#[derive(Clone, Copy)]
pub struct Memory {
    pub words: usize,
}

impl Memory {
    pub const NODES: usize = 512;

    pub const LINKS: usize = 2048;

    pub const DEPTH: usize = 510;

    // The tie rules: of equal costs the lowest number, or the lower incr cost and then the lowest number.
    pub const LOWEST: u16 = 0;

    pub const NEARER: u16 = 1;

    // Numbers a record: a link's, an entry's.
    pub const LINK: usize = 4;

    pub const ENTRY: usize = 10;

    // Numbers of the longest rows: of links, of entries.
    pub const LINK_ROW: usize = Memory::LINKS * Memory::LINK;

    pub const ENTRY_ROW: usize = Memory::NODES * Memory::ENTRY;

    // Numbers of a row that holds any list of a forwarder: twice the nodes less two.
    pub const ROUTE_ROW: usize = 2 * Memory::NODES - 2;

    // The unprotected map: words, and bits a word.
    pub const WORDS: usize = 8;

    pub const BITS: usize = 64;

    pub fn limits() -> Limits
        ensures { result ≡ memory_limits }
    {
        Limits {
            nodes: Memory::NODES,
            links: Memory::LINKS,
            depth: Memory::DEPTH,
        }
    }
}

// The swap link of an entry under a measure.
pub fn swap_by(entry: Entry, measure: Measure) -> Swap
    ensures { result ≡ swap_by entry measure }
{
    match measure {
        Measure::Sum => entry.sum,
        Measure::Incr => entry.incr,
        Measure::Max => entry.max,
    }
}

// The number that SCOPE gives a refusal.
#[tactic(auto, unfolding(crate::specs::Refusals::number_of))]
pub fn number(why: Why) -> u16
    ensures { result ≡ number_of why }
{
    match why {
        Why::NodeCount => 1,
        Why::LinkCount => 2,
        Why::BadRoot => 3,
        Why::BadDepth => 4,
        Why::BadRule => 14,
        Why::BadEnds => 5,
        Why::BadMark => 6,
        Why::BadParent => 7,
        Why::NoRoute => 8,
        Why::NotShort => 9,
        Why::NoRoom => 10,
        Why::LinkMissing => 11,
        Why::TreeLink => 12,
        Why::BreaksShort => 13,
        Why::BadStart => 15,
        Why::BadFailed => 16,
        Why::NoSwap => 17,
        Why::BadLength => 20,
        Why::BadCheck => 21,
        Why::BadBlock => 22,
        Why::BadEntry => 24,
    }
}

// The table: all entries, some of them afresh, or one.
#![tactic(auto)]

ghost use Rattle.std.specs.Prelude.{◌≡◌, ℕ, ◌+◌, ◌*◌, ◌^◌, ◌<◌, ◌≤◌, true, false, List, ◌++◌, length, if◌then◌else◌, nat_eq, slice_index};
ghost use Rattle.entries.specs.Row.{entries_in, put_entry, past_entries};
ghost use Rattle.edition.specs.Entries.{blank, root_state, bridge_state, first_end, second_end};
ghost use Rattle.edition.specs.Limits.{node_limit, longest};
ghost use Rattle.edition.specs.Refusals.{taken};
ghost use Rattle.network.specs.Network.{Net, lent, links_in};
ghost use Rattle.rows.specs.Count.{row_with, rows_to};
ghost use Rattle.tree.specs.Tree.{tree_of, under};
ghost use Rattle.survey.specs.Row.{nodes_in, known_at};
ghost use Rattle.sound.specs.Sound.{net_verdict};
ghost use Rattle.sound.specs.Surveyed.{Surveyed, sound_row};
ghost use Rattle.swap.specs.Entry.{entry};
ghost use Rattle.swap.specs.Work.{through};
ghost use Rattle.table.specs.Work.{Starts, Started, Stepping, Stepped, Costing, Priced, Searching, Offering, OfferedAt, Worth, within_by};
ghost use Rattle.table.specs.Work.{Reads, incr_by, Bidding, bid_of, standing_in};
ghost use Rattle.table.specs.Work.{Climbing, Linked, LinkedTo, Entries, start_at, rank_of, rank, Ranked, Weighed};
ghost use Rattle.table.specs.Work.{first_rank, Partly, Upward, Joined, Ranking, Telling, Rising, Risen, Crossed};
ghost use Rattle.table.specs.declared.Side.{Side};
ghost use Rattle.table.specs.Prefix.{settled, all_settled, no_better, kept, tied_by, standing_by, offered, first_links};
ghost use Rattle.table.specs.Table.{is_asked, fresh_at, table_verdict, work_verdict, fresh_row, table_row, entry_verdict, entry_answer};

use edition::{Edition, Entry, Memory, Refusal, Search, Swap, Why};
use network::{Link, Network};
use tree::Climb;

// A candidate under a measure: its link number, its cost under it, its incr cost, and the mark of its lower end.
#[derive(Clone, Copy)]
struct Offer {
    pub link: u64,
    pub cost: u64,
    pub incr: u64,
    pub lower: u64,
}

// A rank is how many nodes are below an anchor, so many times, and its number plus 1.
const STEP: u32 = 65536;

// What a link costs a node under each measure.
#[derive(Clone, Copy)]
struct Costs {
    pub sum: u64,
    pub incr: u64,
    pub max: u64,
}

// What the standing swap links of a node cost it by incr, under sum and under max; 0 where that does not decide.
#[derive(Clone, Copy)]
struct Standing {
    pub sum: u64,
    pub max: u64,
}

// A climb from the lower end z of a link: z, its mark, its distance and its turn, and the largest tree distance from z to a node below
// where the climb is.
#[derive(Clone, Copy)]
pub struct Side {
    pub climb: Climb,
    pub from: usize,
    pub lower: u64,
    pub near: u64,
    pub turn: u64,
    pub reach: u64,
}

// A link as it is offered to a node: the node, how many hops the link's lower end is below it, the mark of that end, and what the link
// costs the node.
#[derive(Clone, Copy)]
struct Bid {
    pub node: usize,
    pub hops: usize,
    pub lower: u64,
    pub costs: Costs,
}

// A climb that begins at z, the end of a link with this mark.
fn begin_side(survey: &[u64], z: usize, lower: u64) -> Side
    requires { (g : Net) × Starts g survey.now z }
    ensures { (g : Net) → Starts g survey.now z → Started g z lower result }
{
    let k = survey::known_at(survey, z);
    Side {
        climb: Climb::begin(z),
        from: z,
        lower,
        near: k.near,
        turn: k.turn,
        reach: k.deep - k.near,
    }
}

impl Side {
    // One step up, by the records: the next node, one hop more, and the distance to it.
    fn step(self, survey: &[u64]) -> Side
        requires { (g : Net) × Stepping g survey.now self }
        ensures { (g : Net) → Stepping g survey.now self → Stepped g self result }
    {
        let old = self.climb;
        let x = survey::known_at(survey, old.node);
        let up = x.up as usize;
        let p = survey::known_at(survey, up);
        let climb = Climb {
            node: up,
            hops: std::num::wrapping_add_usize(old.hops, 1),
            dist: std::num::wrapping_add_u64(old.dist, x.near - p.near),
        };
        Side {
            climb,
            reach: self.reach.max((self.near - p.near) + (x.beside - p.near)),
            ..self
        }
    }
}

// What is offered to the node where the climb is, of a link with these costs. A value of its own, so that the loop which climbs need
// not keep the whole climb in memory.
#[tactic(auto, unfolding(crate::specs::Work::bid_of))]
fn bid_of(side: Side, c: Costs) -> Bid
    ensures { result ≡ bid_of side c }
{
    Bid {
        node: side.climb.node,
        hops: side.climb.hops,
        lower: side.lower,
        costs: c,
    }
}

// What a link costs the node where the climb is, by the survey and what is carried; k is the way through the link.
fn costs_of(survey: &[u64], side: Side, k: u64) -> Costs
    requires { (g : Net) × (e : ℕ) × Costing g survey.now e k side }
    ensures { (g : Net) (e : ℕ) → Costing g survey.now e k side → Priced g side.climb.node e result }
{
    let x = survey::known_at(survey, side.climb.node);
    Costs {
        sum: x.base + x.count * k - side.turn,
        incr: k - 2 * x.near,
        max: side.reach + (k - side.near),
    }
}

// Whether so many hops are within the depth asked.
#[tactic(auto, unfolding(crate::specs::Work::within_by))]
fn is_within(depth: u16, hops: usize) -> bool
    ensures { result ≡ within_by depth hops }
{
    depth == Edition::WHOLE || hops <= depth as usize
}

// The better of a standing swap link, where there is one yet, and a later candidate. `tied` is what the standing one costs by incr where
// that decides, and 0 elsewhere. Each case returns by itself: one condition for all three makes the table slower.
#[tactic(auto, unfolding(crate::specs::Prefix::kept))]
fn keep(had: bool, tied: u64, old: Swap, new: Offer) -> Swap
    ensures { result ≡ kept had tied old new }
{
    let it = Swap {
        link: new.link,
        cost: new.cost,
        lower: new.lower,
    };
    if !had {
        return it;
    }
    if new.cost < old.cost {
        return it;
    }
    if new.incr < tied {
        return it;
    }
    old
}

// The entry with one more link that crosses within the depth.
#[tactic(auto, unfolding(crate::specs::Prefix::offered))]
fn with_candidate(old: Entry, standing: Standing, e: u64, lower: u64, c: Costs) -> Entry
    ensures { result ≡ offered old standing true e lower c }
{
    let had = old.state == Edition::SWAP;
    let sum = Offer {
        link: e,
        cost: c.sum,
        incr: c.incr,
        lower,
    };
    let incr = Offer {
        link: e,
        cost: c.incr,
        incr: c.incr,
        lower,
    };
    let max = Offer {
        link: e,
        cost: c.max,
        incr: c.incr,
        lower,
    };
    Entry {
        state: Edition::SWAP,
        sum: keep(had, standing.sum, old.sum, sum),
        incr: keep(had, 0, old.incr, incr),
        max: keep(had, standing.max, old.max, max),
    }
}

// The entry with one more link that crosses too deep.
#[tactic(auto, unfolding(crate::specs::Prefix::offered))]
fn with_crossing(old: Entry, standing: Standing, e: u64, lower: u64, c: Costs) -> Entry
    ensures { result ≡ offered old standing false e lower c }
{
    if old.state == Edition::SWAP {
        return old;
    }
    Entry {
        state: Edition::NONE,
        sum: old.sum,
        incr: old.incr,
        max: old.max,
    }
}

// The entry with one more link that crosses, within the depth or not.
fn with_link(old: Entry, standing: Standing, near: bool, e: u64, lower: u64, c: Costs) -> Entry
    ensures { result ≡ offered old standing near e lower c }
{
    if near {
        with_candidate(old, standing, e, lower, c)
    } else {
        with_crossing(old, standing, e, lower, c)
    }
}

// Whether an entry has a swap link already and no cost of a link is lower than its own.
#[tactic(auto, unfolding(crate::specs::Prefix::no_better))]
fn no_better(old: Entry, c: Costs) -> bool
    ensures { result ≡ no_better old c }
{
    old.state == Edition::SWAP
        && old.sum.cost <= c.sum
        && old.incr.cost <= c.incr
        && old.max.cost <= c.max
}

// Whether a swap link stays before a candidate of no lower cost, whatever that costs by incr: the costs differ, or it is the swap link
// under incr.
#[tactic(auto, unfolding(crate::specs::Prefix::settled))]
fn is_settled(s: Swap, least: Swap, cost: u64) -> bool
    ensures { result ≡ settled s least cost }
{
    s.cost != cost || s.link == least.link
}

// Whether this holds under sum and under max.
#[tactic(auto, unfolding(crate::specs::Prefix::all_settled))]
fn all_settled(old: Entry, c: Costs) -> bool
    ensures { result ≡ all_settled old c }
{
    is_settled(old.sum, old.incr, c.sum) && is_settled(old.max, old.incr, c.max)
}

// The way through a link: the distances of its ends and its length.
fn way_through(survey: &[u64], l: Link) -> u64
    requires { (g : Net) × Starts g survey.now l.first × Starts g survey.now l.second × (l.length ≤ longest) }
    ensures { (g : Net)
        → Starts g survey.now l.first
        → Starts g survey.now l.second
        → result ≡ through (tree_of g) l }
{
    let p = survey::known_at(survey, l.first as usize);
    let q = survey::known_at(survey, l.second as usize);
    p.near + l.length as u64 + q.near
}

// What link b costs node x by incr, where it crosses x: the way through it less twice the distance of x.
fn incr_of(links: &[u16], survey: &[u64], x: usize, b: u64) -> u64
    requires { (g : Net) × Starts g survey.now x × Reads g links.now }
    ensures { (g : Net) → Starts g survey.now x → Reads g links.now → result ≡ incr_by g x b }
{
    let k = way_through(survey, network::link_at(links, b as usize));
    let at = survey::known_at(survey, x);
    k.saturating_sub(2 * at.near)
}

// What a swap link of node x costs it by incr, where that decides between it and a candidate of this cost; 0 elsewhere.
#[tactic(auto, unfolding(crate::specs::Prefix::tied_by))]
fn tied_incr(rule: u16, links: &[u16], survey: &[u64], x: usize, s: Swap, cost: u64) -> u64
    requires { (g : Net) × Starts g survey.now x × Reads g links.now }
    ensures { (g : Net)
        → Starts g survey.now x
        → Reads g links.now
        → result ≡ tied_by rule (incr_by g x) s cost }
{
    if cost == s.cost && rule == Memory::NEARER {
        incr_of(links, survey, x, s.link)
    } else {
        0
    }
}

// So under sum and under max, of an entry and a candidate of these costs.
#[tactic(auto, unfolding(crate::specs::Prefix::standing_by))]
fn standing_of(rule: u16, links: &[u16], survey: &[u64], x: usize, old: Entry, c: Costs) -> Standing
    requires { (g : Net) × Starts g survey.now x × Reads g links.now }
    ensures { (g : Net)
        → Starts g survey.now x
        → Reads g links.now
        → result ≡ standing_by rule (incr_by g x) old c }
{
    Standing {
        sum: tied_incr(rule, links, survey, x, old.sum, c.sum),
        max: tied_incr(rule, links, survey, x, old.max, c.max),
    }
}

// The rank of node x, were it asked for.
fn own_rank(survey: &[u64], x: usize) -> u32
    requires { Weighed survey.now x }
    ensures { result ≡ rank_of (known_at survey.now x).count x }
{
    let k = survey::known_at(survey, x);
    k.count as u32 * STEP + x as u32 + 1
}

// Whether a link of these costs can better the entry of the node where the climb is: that node is asked for, and has no swap link yet,
// or one that costs more under a measure, or as much where the tie rule sets the new one before it.
fn is_worth(search: Search, ranks: &[u32], entries: &[u64], side: Side, c: Costs) -> bool
    requires { (g : Net) × (links : List ℕ) × (asked : List ℕ) × (survey : List ℕ) × (e : ℕ) × (k : ℕ)
        × Offering g search links asked survey ranks.now entries.now e k side
        × Priced g side.climb.node e c }
    ensures { let row = entries.now in
        ((g : Net) (links asked survey : List ℕ) (e k : ℕ)
        → Offering g search links asked survey ranks.now row e k side
        → Priced g side.climb.node e c
        → Worth g g.nodes asked e side.climb.node row result) }
{
    let x = side.climb.node;
    if ranks[x] % STEP != x as u32 + 1 {
        return false;
    }
    if !no_better(entries::entry_there(entries, x), c) {
        return true;
    }
    if search.rule != Memory::NEARER {
        return false;
    }
    !all_settled(entries::entry_there(entries, x), c)
}

// What the swap links of the node that is bid for cost it by incr, where that decides.
fn standing_at(links: &[u16], search: Search, survey: &[u64], entries: &[u64], bid: Bid) -> Standing
    requires { (g : Net) × (asked : List ℕ) × (ranks : List ℕ) × (e : ℕ) × (k : ℕ) × (side : Side)
        × Bidding g search links.now asked survey.now ranks entries.now e k side bid }
    ensures { let row = entries.now in
        ((g : Net) (asked ranks : List ℕ) (e k : ℕ) (side : Side)
        → Bidding g search links.now asked survey.now ranks row e k side bid
        → result ≡ standing_in g search row bid) }
{
    let old = entries::entry_there(entries, bid.node);
    standing_of(search.rule, links, survey, bid.node, old, bid.costs)
}

// Offers link e to a node that is asked for.
fn offer_at(search: Search, entries: &mut [u64], bid: Bid, standing: Standing, e: usize)
    requires { (g : Net) × (links : List ℕ) × (asked : List ℕ) × (survey : List ℕ) × (ranks : List ℕ) × (k : ℕ) × (side : Side)
        × Bidding g search links asked survey ranks entries.old e k side bid }
    ensures { let row = entries.old in
        ((g : Net) (links asked survey ranks : List ℕ) (k : ℕ) (side : Side)
        → Bidding g search links asked survey ranks row e k side bid
        → standing ≡ standing_in g search row bid
        → OfferedAt g g.nodes asked e side.climb.node row entries.new) }
{
    let old = entries::entry_there(entries, bid.node);
    let near_enough = is_within(search.depth, bid.hops);
    let new = with_link(old, standing, near_enough, e as u64, bid.lower, bid.costs);
    entries::put_there(entries, bid.node, new);
}

// Offers link e to the node where a climb is, where that node is asked for and the link can better its entry; k is the way through the
// link. It is inlined, so that the loop which climbs need not keep the whole climb in memory.
#[inline(always)]
fn offer_here(
    links: &[u16],
    search: Search,
    survey: &[u64],
    ranks: &[u32],
    entries: &mut [u64],
    side: Side,
    e: usize,
    k: u64,
)
    requires { (g : Net) × (asked : List ℕ) × Offering g search links.now asked survey.now ranks.now entries.old e k side }
    ensures { let row = entries.old in
        ((g : Net) (asked : List ℕ)
        → Offering g search links.now asked survey.now ranks.now row e k side
        → OfferedAt g g.nodes asked e side.climb.node row entries.new) }
{
    let c = costs_of(survey, side, k);
    if is_worth(search, ranks, entries, side, c) {
        let bid = bid_of(side, c);
        let standing = standing_at(links, search, survey, entries, bid);
        offer_at(search, entries, bid, standing, e);
    }
}

// The rank where a climb is.
fn rank_at(ranks: &[u32], side: Side) -> u32
    requires { (side.climb.node < node_limit) × (side.climb.node < length ranks.now) }
    ensures { result ≡ slice_index ranks.now side.climb.node }
{
    ranks[side.climb.node]
}

// Offers link e to every node asked for that it crosses, by a climb from each end up to where both have the same rank. The one
// whose anchor has fewer nodes below it is not above the other, and goes on; one that has no anchor stands still.
fn climb_link(
    links: &[u16],
    search: Search,
    survey: &[u64],
    ranks: &[u32],
    entries: &mut [u64],
    first: Side,
    second: Side,
    e: usize,
    k: u64,
)
    requires { (g : Net) × (asked : List ℕ)
        × Climbing g search links.now asked survey.now ranks.now entries.old e k first second }
    ensures { let row = entries.old in
        ((g : Net) (asked : List ℕ)
        → Climbing g search links.now asked survey.now ranks.now row e k first second
        → Linked g g.nodes asked e row entries.new) }
{
    let mut a = first;
    let mut b = second;
    while rank_at(ranks, a) != rank_at(ranks, b) {
        if rank_at(ranks, b) / STEP < rank_at(ranks, a) / STEP {
            offer_here(links, search, survey, ranks, entries, b, e, k);
            b = b.step(survey);
        } else {
            offer_here(links, search, survey, ranks, entries, a, e, k);
            a = a.step(survey);
        }
    }
}

// Offers link e to every node asked for that it crosses. A link out of service and a tree link cross none; a link whose ends have one
// rank crosses none that is asked for.
fn offer_link(net: Network, survey: &[u64], ranks: &[u32], entries: &mut [u64], e: usize)
    requires { let g = lent net in
        ((asked : List ℕ) × Searching g asked survey.now ranks.now entries.old × (e < links_in net.links.now)) }
    ensures { let g = lent net.entry in
        let row = entries.old in
        ((asked : List ℕ)
        → Searching g asked survey.now ranks.now row
        → Linked g g.nodes asked e row entries.new) }
{
    let l = network::link_at(net.links, e);
    if !network::in_service(l) {
        return;
    }
    let p = l.first as usize;
    let q = l.second as usize;
    if network::parent_of(net.parents, p) as usize == e {
        return;
    }
    if network::parent_of(net.parents, q) as usize == e {
        return;
    }
    if ranks[p] == ranks[q] {
        return;
    }
    let a = begin_side(survey, p, Edition::FIRST);
    let b = begin_side(survey, q, Edition::SECOND);
    let k = a.near + l.length as u64 + b.near;
    climb_link(net.links, net.search, survey, ranks, entries, a, b, e, k);
}

// The entry of x before any link: the root's, or a bridge's.
fn first_entry(search: Search, x: usize) -> Entry
    ensures { result ≡ blank (if nat_eq x search.root then root_state else bridge_state) }
{
    if x == search.root as usize {
        return Edition::root_entry();
    }
    Edition::blank_entry(Edition::BRIDGE)
}

// The entry of x as it is before any link, where x is asked for.
fn clear_at(search: Search, asked: &[u64], entries: &mut [u64], x: usize)
    ensures { let before = entries.old in
        let first = blank (if nat_eq x search.root then root_state else bridge_state) in
        entries.new ≡ (if is_asked asked.now x then put_entry before x first else before) }
{
    if rows::wide_at(asked, x) == 0 {
        return;
    }
    entries::put_entry(entries, x, first_entry(search, x));
}

// The entry of each node asked for, as it is before any link.
fn clear_asked(parents: &[u16], search: Search, asked: &[u64], entries: &mut [u64])
    requires { length parents.now ≤ entries_in entries.old }
    ensures { let before = entries.old in
        let first = start_at search.root asked.now before in
        Entries (length parents.now) first before entries.new }
{
    for x in 0..parents.len() {
        clear_at(search, asked, entries, x);
    }
}

// Offers every link, in number order.
fn offer_links(net: Network, survey: &[u64], ranks: &[u32], entries: &mut [u64])
    requires { let g = lent net in
        ((asked : List ℕ) × Searching g asked survey.now ranks.now entries.old) }
    ensures { let g = lent net.entry in
        let row = entries.old in
        ((asked : List ℕ)
        → Searching g asked survey.now ranks.now row
        → LinkedTo g g.nodes asked (links_in net.entry.links.now) row entries.new) }
{
    for e in 0..network::links_in(net.links) {
        offer_link(net, survey, ranks, entries, e);
    }
}

// The first rank of x: its own where x is asked for, that of no node where x is the root and is not; 0 elsewhere.
fn first_rank(survey: &[u64], asked: &[u64], root: usize, x: usize) -> u32
    requires { Weighed survey.now x }
    ensures { result ≡ first_rank survey.now asked.now root x }
{
    if rows::wide_at(asked, x) != 0 {
        return own_rank(survey, x);
    }
    if x == root {
        return Edition::NO_NODE as u32 * STEP;
    }
    0
}

// The first ranks of n nodes.
fn mark_ranks(survey: &[u64], asked: &[u64], root: usize, n: usize, ranks: &mut [u32])
    requires { ((x : ℕ) → x < n → Weighed survey.now x) × (n ≤ length ranks.old) }
    ensures { let first = first_rank survey.now asked.now root in
        ranks.new ≡ row_with first n ranks.old }
{
    for x in 0..n {
        ranks[x] = first_rank(survey, asked, root, x);
    }
}

// The rank of u: that of the first node up from it that has one.
fn find_rank(survey: &[u64], ranks: &[u32], u: usize) -> u32
    requires { (g : Net) × (asked : List ℕ) × Upward g asked survey.now ranks.now u }
    ensures { (g : Net) (asked : List ℕ)
        → Upward g asked survey.now ranks.now u
        → result ≡ rank (tree_of g) asked u }
{
    let mut c = u;
    while ranks[c] == 0 {
        c = survey::known_at(survey, c).up as usize;
    }
    ranks[c]
}

// Writes the rank of u to u and every node up from it that has none yet.
fn join_up(survey: &[u64], ranks: &mut [u32], u: usize, a: u32)
    requires { (g : Net) × (asked : List ℕ) × Upward g asked survey.now ranks.old u × (a ≡ rank (tree_of g) asked u) }
    ensures { let row = ranks.old in
        ((g : Net) (asked : List ℕ)
        → Upward g asked survey.now row u
        → a ≡ rank (tree_of g) asked u
        → Joined g asked survey.now u row ranks.new) }
{
    let mut c = u;
    while ranks[c] == 0 {
        ranks[c] = a;
        c = survey::known_at(survey, c).up as usize;
    }
}

// The rank of every node, from the first ones. Each node is written once.
fn join_ranks(survey: &[u64], n: usize, ranks: &mut [u32])
    requires { (g : Net) × (asked : List ℕ) × Partly g asked survey.now ranks.old × (g.nodes ≡ n) }
    ensures { (g : Net) (asked : List ℕ)
        → Partly g asked survey.now ranks.old
        → g.nodes ≡ n
        → Ranked (tree_of g) asked ranks.new }
{
    for u in 0..n {
        let a = find_rank(survey, ranks, u);
        join_up(survey, ranks, u, a);
    }
}

// The rank of every node: that of its anchor, the first node on its route that is asked for.
fn fill_ranks(survey: &[u64], asked: &[u64], root: usize, n: usize, ranks: &mut [u32])
    requires { (g : Net) × Ranking g survey.now root n ranks.old }
    ensures { (g : Net)
        → Ranking g survey.now root n ranks.old
        → Ranked (tree_of g) asked.now ranks.new }
{
    mark_ranks(survey, asked, root, n, ranks);
    join_ranks(survey, n, ranks);
}

// The entries of the nodes asked for afresh, by a survey of a sound network; all others, and what lies past the entries, stay.
fn search_asked(net: Network, survey: &[u64], asked: &[u64], entries: &mut [u64])
    requires { let g = lent net in
        Surveyed g survey.now
        × (length net.parents.now ≤ entries_in entries.old) }
    ensures { let g = lent net.entry in
        Entries (length net.entry.parents.now) (fresh_at g asked.now entries.old) entries.old entries.new }
{
    let mut ranks = [0u32; Memory::NODES];
    fill_ranks(
        survey,
        asked,
        net.search.root as usize,
        net.parents.len(),
        &mut ranks,
    );
    clear_asked(net.parents, net.search, asked, entries);
    offer_links(net, survey, &ranks, entries);
}

// The entries of the nodes asked for afresh, by a survey of the network, which is sound; all others, and what lies past the
// entries, stay as they are.
pub fn refresh_surveyed(net: Network, survey: &[u64], asked: &[u64], entries: &mut [u64])
    requires { let g = lent net in
        Surveyed g survey.now
        × (length net.parents.now ≤ entries_in entries.old) }
    ensures { let g = lent net.entry in
        let n = length net.entry.parents.now in
        let before = entries.old in
        entries.new ≡ rows_to (fresh_at g asked.now before) n ++ past_entries n before }
{
    search_asked(net, survey, asked, entries);
}

// Whether a table can be worked out: refusals 1 to 4, 14, 5 to 9, then 10 where fewer entries are lent than there are nodes.
#[tactic(auto, unfolding(crate::specs::Table::table_verdict, network::specs::Network::net_of))]
pub fn check_table(net: Network, entries: &[u64]) -> Result<(), Refusal>
    ensures { let g = lent net.entry in
        result ≡ table_verdict g entries.now }
{
    let said = sound::check_network(net);
    let Ok(sizes) = said else {
        return sound::handed_up(said);
    };
    rows::refuse_if(entries::entries_in(entries) < sizes.nodes, Why::NoRoom, 0)
}

// The same, and in a lent row the survey of the network, which stands there where 1 to 8 and 14 refuse nothing. Before all of these 10,
// where that row holds fewer records than memory has nodes.
#[tactic(auto, unfolding(network::specs::Network::net_of))]
pub fn survey_table(net: Network, survey: &mut [u64], entries: &[u64]) -> Result<(), Refusal>
    ensures { let g = lent net.entry in
        (result ≡ work_verdict g survey.old entries.now)
        × (survey.new ≡ sound_row g survey.old) }
{
    sound::survey_network(net, survey)?;
    rows::refuse_if(
        entries::entries_in(entries) < net.parents.len(),
        Why::NoRoom,
        0,
    )
}

// The entries of the nodes asked for afresh, all others unwritten. A node is asked for by a number that is not 0.
#[tactic(auto, unfolding(network::specs::Network::net_of))]
pub fn refresh(net: Network, asked: &[u64], entries: &mut [u64]) -> Result<(), Refusal>
    ensures { let g = lent net.entry in
        (result ≡ table_verdict g entries.old)
        × (entries.new ≡ fresh_row g asked.now entries.old) }
{
    let mut survey = [0u64; survey::ROW];
    survey_table(net, &mut survey, entries)?;
    refresh_surveyed(net, &survey, asked, entries);
    Ok(())
}

// The table of all entries, into a lent row. Nothing is written on a refusal, nor past the last entry.
pub fn table(net: Network, entries: &mut [u64]) -> Result<(), Refusal>
    ensures { let g = lent net.entry in
        (result ≡ table_verdict g entries.old)
        × (entries.new ≡ table_row g entries.old) }
{
    let asked = [1u64; Memory::NODES];
    refresh(net, &asked, entries)
}

// Whether a number has an entry: refusals 1 to 4, 14, 5 to 9, then 8 where it is no node.
#[tactic(auto, unfolding(crate::specs::Table::entry_verdict, network::specs::Network::net_of))]
pub fn check_entry(net: Network, x: usize) -> Result<(), Refusal>
    ensures { let g = lent net.entry in
        result ≡ entry_verdict g x }
{
    let said = sound::check_network(net);
    let Ok(sizes) = said else {
        return sound::handed_up(said);
    };
    rows::refuse_if(sizes.nodes <= x, Why::NoRoute, x)
}

// Whether u is in T(x), by a row that tells it.
fn is_below(ranks: &[u32], x: usize, u: usize) -> bool
    requires { (g : Net) × (survey : List ℕ) × Telling g x survey ranks.now × (u < g.nodes) }
    ensures { (g : Net) (survey : List ℕ) → Telling g x survey ranks.now → u < g.nodes → result ≡ under (tree_of g) x u }
{
    ranks[u] == ranks[x]
}

// A climb that begins at the first end of a link, or at the second.
fn end_side(survey: &[u64], l: Link, first: bool) -> Side
    requires { (g : Net) × Starts g survey.now l.first × Starts g survey.now l.second }
    ensures { (g : Net)
        → Starts g survey.now l.first
        → Starts g survey.now l.second
        → Started g (if first then l.first else l.second) (if first then first_end else second_end) result }
{
    if first {
        return begin_side(survey, l.first as usize, Edition::FIRST);
    }
    begin_side(survey, l.second as usize, Edition::SECOND)
}

// A climb that begins in T(x), up to x.
fn climb_to(survey: &[u64], first: Side, x: usize) -> Side
    requires { (g : Net) × Rising g survey.now x first }
    ensures { (g : Net) → Rising g survey.now x first → Risen g survey.now x first result × (result.climb.node ≡ x) }
{
    let mut a = first;
    while a.climb.node != x {
        a = a.step(survey);
    }
    a
}

// The entry of x with one more link, e, which crosses x; `first` says whether its end in T(x) is the first.
fn with_crossed(
    links: &[u16],
    search: Search,
    survey: &[u64],
    x: usize,
    old: Entry,
    e: usize,
    l: Link,
    first: bool,
) -> Entry
    requires { (g : Net) × Crossed g search links.now survey.now x e l first × (old ≡ entry (first_links g e) x) }
    ensures { (g : Net)
        → Crossed g search links.now survey.now x e l first
        → old ≡ entry (first_links g e) x
        → result ≡ entry (first_links g (e + 1)) x }
{
    let side = climb_to(survey, end_side(survey, l, first), x);
    let c = costs_of(survey, side, way_through(survey, l));
    let near_enough = is_within(search.depth, side.climb.hops);
    let standing = standing_of(search.rule, links, survey, x, old, c);
    with_link(old, standing, near_enough, e as u64, side.lower, c)
}

// The entry of x with one more link, e. A link that does not cross x leaves it.
fn with_next(net: Network, survey: &[u64], ranks: &[u32], x: usize, old: Entry, e: usize) -> Entry
    requires { let g = lent net in
        Telling g x survey.now ranks.now × (e < links_in net.links.now) × (old ≡ entry (first_links g e) x) }
    ensures { let g = lent net.entry in
        result ≡ entry (first_links g (e + 1)) x }
{
    let l = network::link_at(net.links, e);
    if !network::in_service(l) {
        return old;
    }
    if network::parent_of(net.parents, x) as usize == e {
        return old;
    }
    let first = is_below(ranks, x, l.first as usize);
    if first == is_below(ranks, x, l.second as usize) {
        return old;
    }
    with_crossed(net.links, net.search, survey, x, old, e, l, first)
}

// The entry of x, from that before any link on, link after link.
fn carry_entry(net: Network, survey: &[u64], ranks: &[u32], x: usize) -> Entry
    requires { let g = lent net in Telling g x survey.now ranks.now }
    ensures { let g = lent net.entry in
        result ≡ entry g x }
{
    let mut it = first_entry(net.search, x);
    for e in 0..network::links_in(net.links) {
        it = with_next(net, survey, ranks, x, it, e);
    }
    it
}

// The entry of node x, by a survey of the network, which is sound; it works out no other entry, and holds no row of entries.
pub fn entry_surveyed(net: Network, survey: &[u64], x: usize) -> Entry
    requires { let g = lent net in
        Surveyed g survey.now × (x < length net.parents.now) }
    ensures { let g = lent net.entry in result ≡ entry g x }
{
    let mut asked = [0u64; Memory::NODES];
    asked[x] = 1;
    let mut ranks = [0u32; Memory::NODES];
    fill_ranks(
        survey,
        &asked,
        net.search.root as usize,
        net.parents.len(),
        &mut ranks,
    );
    carry_entry(net, survey, &ranks, x)
}

// The entry of node x.
#[tactic(auto, unfolding(network::specs::Network::net_of))]
pub fn entry_of(net: Network, x: usize) -> Result<Entry, Refusal>
    ensures { let g = lent net.entry in
        result ≡ entry_answer g x }
{
    let mut survey = [0u64; survey::ROW];
    sound::survey_network(net, &mut survey)?;
    rows::refuse_if(net.parents.len() <= x, Why::NoRoute, x)?;
    Ok(entry_surveyed(net, &survey, x))
}

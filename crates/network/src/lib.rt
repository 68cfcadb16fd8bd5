// A network in lent rows: its links and its nodes' parent links, read totally; refusals 1 to 7 and 14.
#![tactic(auto)]

ghost use Rattle.std.specs.Prelude.{◌≡◌, ◌*◌, min, length, get_or};
ghost use Rattle.edition.specs.Limits.{no_link, link_limit, link_width};
ghost use Rattle.edition.specs.declared.Why.TheVariants.{NodeCount, LinkCount, BadRoot, BadDepth, BadRule, BadEnds, BadMark, BadParent};
ghost use Rattle.rows.specs.First.{first_to, refuse_if, refuse_at};
ghost use Rattle.network.specs.Network.{links_in, link_in, put_link, front_links, past_links, lent, is_parent, in_service, touches, other_end};
ghost use Rattle.network.specs.Records.{bad_nodes, bad_links, bad_root, bad_depth, bad_rule, size_verdict, bad_ends, bad_mark, unfit, bad_parent};

use edition::{Edition, Limits, Memory, Refusal, Search, Why};

mod lent;

pub use lent::Network;

// A link's record: its two ends, its length and its service mark.
#[derive(Clone, Copy)]
pub struct Link {
    pub first: u16,
    pub second: u16,
    pub length: u16,
    pub mark: u16,
}

// How many whole records a row of links holds.
pub fn links_in(links: &[u16]) -> usize
    ensures { result ≡ links_in links.now }
{
    links.len() / Memory::LINK
}

// The records of the first m links: that part of the lent row; all of it where it holds fewer.
#[tactic(auto, unfolding(crate::specs::Network::front_links, rows::specs::Records::first_records))]
pub fn first_links(links: &[u16], m: usize) -> &[u16]
    ensures { result.now ≡ front_links m links.now }
{
    if links.len() / Memory::LINK < m {
        return links;
    }
    rows::first(links, m * Memory::LINK)
}

// What lies past the records of the first m links: that part of the lent row.
#[tactic(auto, unfolding(crate::specs::Network::past_links, rows::specs::Records::past_records))]
pub fn past_links(links: &[u16], m: usize) -> &[u16]
    ensures { result.now ≡ past_links m links.now }
{
    let end = links.len();
    if end / Memory::LINK < m {
        return &links[end..];
    }
    &links[m * Memory::LINK..]
}

// How many numbers m links take; no more than those of as many links as there can be.
pub fn numbers_of(m: usize) -> usize
    ensures { result ≡ min m link_limit * link_width }
{
    if Memory::LINKS < m {
        return Memory::LINK_ROW;
    }
    m * Memory::LINK
}

// The record of link e; all 0 where there is no such link.
#[tactic(auto, unfolding(crate::specs::Network::link_from))]
pub fn link_at(links: &[u16], e: usize) -> Link
    ensures { result ≡ link_in links.now e }
{
    if links.len() / Memory::LINK <= e {
        return Link {
            first: 0,
            second: 0,
            length: 0,
            mark: 0,
        };
    }
    let at = e * Memory::LINK;
    Link {
        first: links[at],
        second: links[at + 1],
        length: links[at + 2],
        mark: links[at + 3],
    }
}

// Writes the record of link e; nothing where there is no such link.
#[tactic(auto, unfolding(crate::specs::Network::link_row))]
pub fn put_link(links: &mut [u16], e: usize, l: Link)
    ensures { links.new ≡ put_link links.old e l }
{
    if links.len() / Memory::LINK <= e {
        return;
    }
    let at = e * Memory::LINK;
    links[at] = l.first;
    links[at + 1] = l.second;
    links[at + 2] = l.length;
    links[at + 3] = l.mark;
}

// The parent link that node u names; 65,535 where u is no node.
pub fn parent_of(parents: &[u16], u: usize) -> u16
    ensures { result ≡ get_or parents.now u no_link }
{
    rows::at(parents, u, Edition::no_link())
}

// Whether link e is some node's parent link; so is 65,535, which the root names.
pub fn is_parent(parents: &[u16], e: usize) -> bool
    ensures { let row = parents.now in
        result ≡ is_parent (λ u. get_or row u no_link) (length row) e }
{
    for u in 0..parents.len() {
        if parent_of(parents, u) as usize == e {
            return true;
        }
    }
    false
}

// Whether the link is in service.
#[tactic(auto, unfolding(crate::specs::Network::in_service))]
pub fn in_service(l: Link) -> bool
    ensures { result ≡ in_service l }
{
    l.mark == Edition::SERVED
}

// Whether u is an end of the link.
#[tactic(auto, unfolding(crate::specs::Network::touches))]
pub fn touches(l: Link, u: usize) -> bool
    ensures { result ≡ touches l u }
{
    if l.first as usize == u {
        return true;
    }
    l.second as usize == u
}

// The end of the link that is not u.
#[tactic(auto, unfolding(crate::specs::Network::other_end))]
pub fn other_end(l: Link, u: usize) -> usize
    ensures { result ≡ other_end l u }
{
    if l.first as usize == u {
        return l.second as usize;
    }
    l.first as usize
}

// 1: n is 0 or over the limit.
#[tactic(auto, unfolding(crate::specs::Records::bad_nodes))]
fn bad_nodes(most: Limits, n: usize) -> bool
    ensures { result ≡ bad_nodes most n }
{
    if n == 0 {
        return true;
    }
    most.nodes < n
}

// 4: the depth is over the limit and not the whole search.
#[tactic(auto, unfolding(crate::specs::Records::bad_depth))]
fn bad_depth(most: Limits, depth: u16) -> bool
    ensures { result ≡ bad_depth most depth }
{
    if depth as usize <= most.depth {
        return false;
    }
    depth != Edition::WHOLE
}

// 14: the tie rule is neither 0 nor 1.
#[tactic(auto, unfolding(crate::specs::Records::bad_rule))]
fn bad_rule(rule: u16) -> bool
    ensures { result ≡ bad_rule rule }
{
    if rule == Memory::LOWEST {
        return false;
    }
    rule != Memory::NEARER
}

// Refusal 1, of the number of nodes.
pub fn check_nodes(most: Limits, n: usize) -> Result<(), Refusal>
    ensures { result ≡ refuse_if (bad_nodes most n) NodeCount 0 }
{
    rows::refuse_if(bad_nodes(most, n), Why::NodeCount, 0)
}

// Refusal 2, of the number of links.
#[tactic(auto, unfolding(crate::specs::Records::bad_links))]
pub fn check_links(most: Limits, m: usize) -> Result<(), Refusal>
    ensures { result ≡ refuse_if (bad_links most m) LinkCount 0 }
{
    rows::refuse_if(most.links < m, Why::LinkCount, 0)
}

// Refusal 3, of the root among n nodes.
#[tactic(auto, unfolding(crate::specs::Records::bad_root))]
pub fn check_root(n: usize, root: u16) -> Result<(), Refusal>
    ensures { result ≡ refuse_if (bad_root n root) BadRoot 0 }
{
    rows::refuse_if(n <= root as usize, Why::BadRoot, 0)
}

// Refusal 4, of the depth.
pub fn check_depth(most: Limits, depth: u16) -> Result<(), Refusal>
    ensures { result ≡ refuse_if (bad_depth most depth) BadDepth 0 }
{
    rows::refuse_if(bad_depth(most, depth), Why::BadDepth, 0)
}

// Refusal 14, of the tie rule.
pub fn check_rule(rule: u16) -> Result<(), Refusal>
    ensures { result ≡ refuse_if (bad_rule rule) BadRule 0 }
{
    rows::refuse_if(bad_rule(rule), Why::BadRule, 0)
}

// Refusals 1 to 4, then 14, of numbers: n, m, root, depth and tie rule.
#[tactic(auto, unfolding(crate::specs::Records::size_verdict, rows::specs::First::firstly))]
pub fn check_sizes(most: Limits, n: usize, m: usize, search: Search) -> Result<(), Refusal>
    ensures { result ≡ size_verdict most n m search }
{
    check_nodes(most, n)?;
    check_links(most, m)?;
    check_root(n, search.root)?;
    check_depth(most, search.depth)?;
    check_rule(search.rule)
}

// 5: an end is no node, or both ends are equal.
#[tactic(auto, unfolding(crate::specs::Records::bad_ends))]
fn bad_ends(n: usize, l: Link) -> bool
    ensures { result ≡ bad_ends n l }
{
    if n <= l.first as usize {
        return true;
    }
    if n <= l.second as usize {
        return true;
    }
    l.first == l.second
}

// 6: the service mark is neither 0 nor 1.
#[tactic(auto, unfolding(crate::specs::Records::bad_mark))]
pub fn bad_mark(mark: u16) -> bool
    ensures { result ≡ bad_mark mark }
{
    if mark == Edition::WITHDRAWN {
        return false;
    }
    mark != Edition::SERVED
}

// The lowest link with bad ends.
fn first_bad_ends(links: &[u16], n: usize) -> Option<usize>
    ensures { result ≡ first_to (λ e. bad_ends n (link_in links.now e)) (links_in links.now) }
{
    rows::lowest(links_in(links), |e| bad_ends(n, link_at(links, e)))
}

// The lowest link with a bad service mark.
fn first_bad_mark(links: &[u16]) -> Option<usize>
    ensures { result ≡ first_to (λ e. bad_mark (link_in links.now e).mark) (links_in links.now) }
{
    rows::lowest(links_in(links), |e| bad_mark(link_at(links, e).mark))
}

// Refusal 5, of a row of links among n nodes.
#[tactic(auto, unfolding(rows::specs::First::refuse_at))]
pub fn check_ends(links: &[u16], n: usize) -> Result<(), Refusal>
    ensures { let row = links.now in
        result ≡ refuse_at (λ e. bad_ends n (link_in row e)) (links_in row) BadEnds }
{
    rows::refused_at(Why::BadEnds, first_bad_ends(links, n))
}

// Refusal 6, of a row of links.
#[tactic(auto, unfolding(rows::specs::First::refuse_at))]
pub fn check_marks(links: &[u16]) -> Result<(), Refusal>
    ensures { let row = links.now in
        result ≡ refuse_at (λ e. bad_mark (link_in row e).mark) (links_in row) BadMark }
{
    rows::refused_at(Why::BadMark, first_bad_mark(links))
}

// 7 for a node that is not the root: e is no link, withdrawn or not touching it.
#[tactic(auto, unfolding(crate::specs::Records::unfit))]
fn is_unfit(m: usize, e: usize, l: Link, u: usize) -> bool
    ensures { result ≡ unfit m e l u }
{
    if m <= e {
        return true;
    }
    if !in_service(l) {
        return true;
    }
    !touches(l, u)
}

// 7: the root's parent link is not 65,535, or another's is unfit.
#[tactic(auto, unfolding(crate::specs::Records::bad_parent, crate::specs::Network::net_of))]
fn bad_parent(net: Network, u: usize) -> bool
    ensures { result ≡ bad_parent (lent net.entry) u }
{
    let root = net.search.root as usize;
    let none = Edition::no_link() as usize;
    let e = parent_of(net.parents, u) as usize;
    if u == root {
        return e != none;
    }
    is_unfit(links_in(net.links), e, link_at(net.links, e), u)
}

// The lowest node with a bad parent link.
#[tactic(auto, unfolding(crate::specs::Network::net_of))]
fn first_bad_parent(net: Network) -> Option<usize>
    ensures { let g = lent net.entry in
        result ≡ first_to (bad_parent g) g.nodes }
{
    rows::lowest(net.parents.len(), |u| bad_parent(net, u))
}

// Refusal 7, of the row of parent links.
#[tactic(auto, unfolding(rows::specs::First::refuse_at))]
pub fn check_parents(net: Network) -> Result<(), Refusal>
    ensures { let g = lent net.entry in
        result ≡ refuse_at (bad_parent g) g.nodes BadParent }
{
    rows::refused_at(Why::BadParent, first_bad_parent(net))
}

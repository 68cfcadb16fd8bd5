// The tree that a network's parent links make: climbing, routes, distances, where routes meet.
#![tactic(auto)]

ghost use Rattle.std.specs.Prelude.{◌≡◌, ◌+◌, ◌<◌, ◌≤◌, true, length};
ghost use Rattle.edition.specs.Limits.{node_limit};
ghost use Rattle.rows.specs.Count.{row_with};
ghost use Rattle.network.specs.Network.{lent};
ghost use Rattle.tree.specs.Tree.{tree_of, has_route, dist, meet, apart};
ghost use Rattle.tree.specs.Answers.{begun, stepped, room_verdict, row_verdict, distance_row, lost, way_verdict, answer_if, route_answer, route_row};
ghost use Rattle.tree.specs.Answers.{ways_verdict, meet_answer, apart_answer};
ghost use Rattle.tree.specs.Work.{Rooted, Routed};

use edition::{Edition, Memory, Refusal, Search, Why};
use network::Network;

// A climb by value: where it is, and how many hops and how far that is from where it began.
#[derive(Clone, Copy)]
pub struct Climb {
    pub node: usize,
    pub hops: usize,
    pub dist: u64,
}

// Where two routes meet, and the length of the tree path through there.
#[derive(Clone, Copy)]
struct Met {
    node: usize,
    length: u64,
}

// The parent of u; the root is its own.
#[tactic(auto, unfolding(crate::specs::Tree::tree_of, network::specs::Network::net_of))]
pub fn up(net: Network, u: usize) -> usize
    ensures { let g = lent net.entry in
        result ≡ (tree_of g).up u }
{
    if u == net.search.root as usize {
        return u;
    }
    let e = network::parent_of(net.parents, u);
    network::other_end(network::link_at(net.links, e as usize), u)
}

// The length of the link from u to its parent; 0 at the root.
#[tactic(auto, unfolding(crate::specs::Tree::tree_of, network::specs::Network::net_of))]
pub fn rise(net: Network, u: usize) -> u16
    ensures { let g = lent net.entry in
        result ≡ (tree_of g).rise u }
{
    if u == net.search.root as usize {
        return 0;
    }
    let e = network::parent_of(net.parents, u);
    let l = network::link_at(net.links, e as usize);
    l.length
}

impl Climb {
    #[tactic(auto, unfolding(crate::specs::Answers::begun))]
    pub fn begin(u: usize) -> Climb
        ensures { result ≡ begun u }
    {
        Climb {
            node: u,
            hops: 0,
            dist: 0,
        }
    }

    // One step up.
    #[tactic(auto, unfolding(crate::specs::Answers::stepped))]
    pub fn step(self, net: Network) -> Climb
        ensures { let g = lent net.entry in
            result ≡ stepped (tree_of g) self }
    {
        let more = rise(net, self.node);
        Climb {
            node: up(net, self.node),
            hops: std::num::wrapping_add_usize(self.hops, 1),
            dist: std::num::wrapping_add_u64(self.dist, more as u64),
        }
    }
}

// Whether u has a route to the root. It ends after as many steps as there are nodes.
#[tactic(auto, unfolding(crate::specs::Tree::has_route, crate::specs::Tree::tree_of, network::specs::Network::net_of))]
pub fn has_route(net: Network, u: usize) -> bool
    ensures { let g = lent net.entry in
        result ≡ has_route (tree_of g) u }
{
    let mut node = u;
    for _k in 0..net.parents.len() {
        if node == net.search.root as usize {
            return true;
        }
        node = up(net, node);
    }
    false
}

// The climb from u to the root, or, where u has no route, of as many steps as there are nodes.
fn to_root(net: Network, u: usize) -> Climb
    requires { length net.parents.now ≤ node_limit }
    ensures { let g = lent net.entry in
        Rooted (tree_of g) u result }
{
    let mut c = Climb::begin(u);
    for _k in 0..net.parents.len() {
        if c.node == net.search.root as usize {
            return c;
        }
        c = c.step(net);
    }
    c
}

// Refusals 1 and 10 of a row of one number a node.
#[tactic(auto, unfolding(crate::specs::Answers::room_verdict, rows::specs::First::firstly))]
pub fn check_row(n: usize, room: usize) -> Result<(), Refusal>
    ensures { result ≡ room_verdict n room }
{
    network::check_nodes(Memory::limits(), n)?;
    rows::refuse_if(room < n, Why::NoRoom, 0)
}

// Writes d(u) of every node.
fn fill_distances(net: Network, row: &mut [u64])
    requires { (length net.parents.now ≤ node_limit) × (length net.parents.now ≤ length row.old) }
    ensures { let g = lent net.entry in
        row.new ≡ row_with (dist (tree_of g)) (length net.entry.parents.now) row.old }
{
    for u in 0..net.parents.len() {
        let c = to_root(net, u);
        row[u] = c.dist;
    }
}

// d(u) of every node, into a lent row of at least n numbers. Refusals 1 and 10.
#[tactic(auto, unfolding(crate::specs::Answers::distance_row, crate::specs::Answers::row_verdict, network::specs::Network::net_of))]
pub fn distances(net: Network, row: &mut [u64]) -> Result<(), Refusal>
    ensures { let g = lent net.entry in
        (result ≡ row_verdict g row.old)
        × (row.new ≡ distance_row g row.old) }
{
    check_row(net.parents.len(), row.len())?;
    fill_distances(net, row);
    Ok(())
}

// Whether u is no node, or has no route to the root.
#[tactic(auto, unfolding(crate::specs::Answers::lost, network::specs::Network::net_of))]
fn is_lost(net: Network, u: usize) -> bool
    ensures { let g = lent net.entry in
        result ≡ lost g u }
{
    if net.parents.len() <= u {
        return true;
    }
    !has_route(net, u)
}

// Refusals 1 and 8 of one node.
#[tactic(auto, unfolding(crate::specs::Answers::way_verdict, rows::specs::First::firstly, network::specs::Network::net_of))]
pub fn check_way(net: Network, u: usize) -> Result<(), Refusal>
    ensures { let g = lent net.entry in
        result ≡ way_verdict g u }
{
    network::check_nodes(Memory::limits(), net.parents.len())?;
    rows::refuse_if(is_lost(net, u), Why::NoRoute, u)
}

// Writes the route of u from place `at` on, with `left` nodes left to go, and gives its length.
fn write_route(net: &Network, left: usize, u: usize, row: &mut [usize], at: usize) -> u64
    requires { (left ≤ node_limit) × (at + left ≤ length row.old) }
    ensures { let g = lent net.entry.now in
        Routed (tree_of g) left u at row.old result row.new }
{
    if left == 0 {
        return 0;
    }
    row[at] = u;
    if u == net.search.root as usize {
        return 0;
    }
    let w = rise(*net, u);
    let p = up(*net, u);
    w as u64 + write_route(net, left - 1, p, row, at + 1)
}

// The route of u into a lent row, and its length. Refusals 1, 8 and 10.
#[tactic(auto, unfolding(crate::specs::Answers::route_answer, crate::specs::Answers::route_row, crate::specs::Answers::route_verdict, rows::specs::First::firstly))]
pub fn route(net: Network, u: usize, row: &mut [usize]) -> Result<u64, Refusal>
    ensures { let g = lent net.entry in
        (result ≡ route_answer g u row.old)
        × (row.new ≡ route_row g u row.old) }
{
    check_way(net, u)?;
    let c = to_root(net, u);
    let nodes = c.hops + 1;
    rows::refuse_if(row.len() < nodes, Why::NoRoom, 0)?;
    Ok(write_route(&net, nodes, u, row, 0))
}

// Where the routes of u and z meet, and the length of the tree path from u to z. Of the two nodes the one that is more hops from the
// root climbs, until they are one; where both are as many, the second. It is not above the other.
fn climb_to_meet(net: Network, u: usize, z: usize) -> Met
    requires { let g = lent net in
        let t = tree_of g in
        (length net.parents.now ≤ node_limit)
        × (has_route t u ≡ true)
        × (has_route t z ≡ true) }
    ensures { let g = lent net.entry in
        let t = tree_of g in
        (result.node ≡ meet t u z)
        × (result.length ≡ apart t u z) }
{
    let from_u = to_root(net, u);
    let from_z = to_root(net, z);
    let mut a = Climb::begin(u);
    let mut b = Climb::begin(z);
    while a.node != b.node {
        if from_z.hops + a.hops < from_u.hops + b.hops {
            a = a.step(net);
        } else {
            b = b.step(net);
        }
    }
    Met {
        node: a.node,
        length: a.dist + b.dist,
    }
}

// Refusals 1, and 8 of two nodes.
#[tactic(auto, unfolding(crate::specs::Answers::ways_verdict, rows::specs::First::firstly))]
fn check_ways(net: Network, u: usize, z: usize) -> Result<(), Refusal>
    ensures { let g = lent net.entry in
        result ≡ ways_verdict g u z }
{
    check_way(net, u)?;
    check_way(net, z)
}

// Where the routes of u and z first meet. Refusals 1, and 8 at u or z.
#[tactic(auto, unfolding(crate::specs::Answers::meet_answer))]
pub fn meet_of(net: Network, u: usize, z: usize) -> Result<u64, Refusal>
    ensures { let g = lent net.entry in
        result ≡ meet_answer g u z }
{
    check_ways(net, u, z)?;
    let met = climb_to_meet(net, u, z);
    Ok(met.node as u64)
}

// t(u,z), the length of the tree path from u to z. Refusals 1, and 8 at u or z.
#[tactic(auto, unfolding(crate::specs::Answers::apart_answer))]
pub fn tree_distance(net: Network, u: usize, z: usize) -> Result<u64, Refusal>
    ensures { let g = lent net.entry in
        result ≡ apart_answer g u z }
{
    check_ways(net, u, z)?;
    let met = climb_to_meet(net, u, z);
    Ok(met.length)
}

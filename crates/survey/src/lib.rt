// What walks over the nodes tell of a tree: an order with every parent before its children, whether all nodes have a route, their
// distances, and all that a search wants to know of each node, in O(n).
#![tactic(auto)]

ghost use Rattle.std.specs.Prelude.{◌≡◌, List, ◌++◌, ℕ, ◌+◌, ◌^◌, ◌<◌, ◌≤◌, length, get_or};
ghost use Rattle.edition.specs.Limits.{node_limit};
ghost use Rattle.edition.specs.Refusals.{if_taken};
ghost use Rattle.edition.specs.declared.Why.TheVariants.{NoRoute};
ghost use Rattle.rows.specs.Count.{row_with, rows_to};
ghost use Rattle.rows.specs.First.{first_to, refuse_at};
ghost use Rattle.network.specs.Network.{lent};
ghost use Rattle.tree.specs.Tree.{Tree, tree_of, dist};
ghost use Rattle.survey.specs.Known.{known};
ghost use Rattle.survey.specs.Row.{nodes_in, known_row, known_at, put_known, past_known};
ghost use Rattle.survey.specs.Survey.{strays, routeless, closed_verdict, survey_verdict, survey_row, surveyed_verdict, surveyed_row};
ghost use Rattle.survey.specs.Work.{Closed, Order, Placed, Climbed, Fresh, Ready, Settled, Next};
ghost use Rattle.survey.specs.Work.{Basis, Held, Under, Begun, Summed, Sided, Told, Adds, Turns};
ghost use Rattle.survey.specs.Work.{lower, without, with_child, with_aside, with_beside, with_turn};

use edition::{Memory, Refusal, Search, Why};
use network::Network;

// What is known of a node: its parent; d of it; of its T how many nodes that has, the two numbers by which a sum is known, and the
// largest d; and the largest d in T of the parent and not in its own.
#[derive(Clone, Copy)]
pub struct Known {
    pub up: u64,
    pub near: u64,
    pub count: u64,
    pub base: u64,
    pub turn: u64,
    pub deep: u64,
    pub beside: u64,
}

// Numbers in a node's record, and in a row of as many nodes as memory holds.
const WIDTH: usize = 7;

pub const ROW: usize = Memory::NODES * WIDTH;

// How many whole records a row holds.
pub fn nodes_in(row: &[u64]) -> usize
    ensures { result ≡ nodes_in row.now }
{
    row.len() / WIDTH
}

// What a row says of node x.
pub fn known_at(row: &[u64], x: usize) -> Known
    requires { x < nodes_in row.now }
    ensures { result ≡ known_at row.now x }
{
    let at = x * WIDTH;
    Known {
        up: row[at],
        near: row[at + 1],
        count: row[at + 2],
        base: row[at + 3],
        turn: row[at + 4],
        deep: row[at + 5],
        beside: row[at + 6],
    }
}

// Writes what is known of node x.
#[tactic(auto, unfolding(crate::specs::Row::known_row))]
fn put_known(row: &mut [u64], x: usize, k: Known)
    requires { x < nodes_in row.old }
    ensures { row.new ≡ put_known row.old x k }
{
    let at = x * WIDTH;
    row[at] = k.up;
    row[at + 1] = k.near;
    row[at + 2] = k.count;
    row[at + 3] = k.base;
    row[at + 4] = k.turn;
    row[at + 5] = k.deep;
    row[at + 6] = k.beside;
}

// The nodes from u up to the first that has a seat, written into the row: how many they are; none where u has no route.
#[tactic(auto, unfolding(tree::specs::Tree::tree_of, network::specs::Network::net_of))]
fn climb_free(net: Network, seats: &[u16], path: &mut [u16], u: usize) -> Option<usize>
    requires { let g = lent net in
        Closed (tree_of g)
        × (length net.parents.now ≤ length seats.now)
        × (length net.parents.now ≤ length path.old)
        × (u < length net.parents.now)
        × (0 < get_or seats.now net.search.root 0) }
    ensures { let g = lent net.entry in
        Climbed (tree_of g) seats.now u result path.new }
{
    let mut v = u;
    for k in 0..net.parents.len() {
        if seats[v] != 0 {
            return Some(k);
        }
        path[k] = v as u16;
        v = tree::up(net, v);
    }
    None
}

// The nodes of a path get places, the last one first: how many nodes have places then.
fn settle(order: &mut [u16], seats: &mut [u16], path: &[u16], k: usize, m: usize) -> usize
    requires { (t : Tree) × (u : ℕ) × Ready t u k m order.old seats.old path.now }
    ensures { (t : Tree) (u : ℕ)
        → Ready t u k m order.old seats.old path.now
        → Settled t seats.old u result order.new seats.new }
{
    for i in 0..k {
        let v = path[k - 1 - i];
        order[m + i] = v;
        seats[v as usize] = (m + i + 1) as u16;
    }
    m + k
}

// The root gets the first place, where no node has one.
fn begin(root: u16, order: &mut [u16], seats: &mut [u16])
    requires { (t : Tree) × Fresh t root order.old seats.old }
    ensures { (t : Tree)
        → Fresh t root order.old seats.old
        → Placed t 1 order.new seats.new }
{
    order[0] = root;
    seats[root as usize] = 1;
}

// Each node gets a place, up to the first that has no route.
#[tactic(auto, unfolding(tree::specs::Tree::tree_of, network::specs::Network::net_of))]
fn place_all(net: Network, order: &mut [u16], seats: &mut [u16], path: &mut [u16]) -> Option<usize>
    requires { let g = lent net in
        Closed (tree_of g)
        × Placed (tree_of g) 1 order.old seats.old
        × (length net.parents.now ≤ length path.old) }
    ensures { let g = lent net.entry in
        (result ≡ first_to (routeless (tree_of g)) (length net.entry.parents.now))
        × (result ≡ None → Order (tree_of g) order.new) }
{
    let mut m = 1;
    for u in 0..net.parents.len() {
        let Some(k) = climb_free(net, seats, path, u) else {
            return Some(u);
        };
        m = settle(order, seats, path, k, m);
    }
    None
}

// The nodes in an order in which the root comes first and each parent before its children, in the first n numbers of a row. Where
// a node has no route: the lowest such node.
#[tactic(auto, unfolding(tree::specs::Tree::tree_of, network::specs::Network::net_of))]
fn in_order(net: Network, order: &mut [u16]) -> Option<usize>
    requires { let g = lent net in
        Closed (tree_of g)
        × (length net.parents.now ≤ length order.old) }
    ensures { let g = lent net.entry in
        (result ≡ first_to (routeless (tree_of g)) (length net.entry.parents.now))
        × (result ≡ None → Order (tree_of g) order.new) }
{
    let mut seats = [0u16; Memory::NODES];
    let mut path = [0u16; Memory::NODES];
    begin(net.search.root, order, &mut seats);
    place_all(net, order, &mut seats, &mut path)
}

// d(v), from that of its parent.
fn next_distance(net: Network, row: &[u64], v: usize) -> u64
    requires { let g = lent net in
        Next (tree_of g) (dist (tree_of g)) row.now v
        × (length net.parents.now ≤ node_limit) }
    ensures { let g = lent net.entry in
        result ≡ dist (tree_of g) v }
{
    if v == net.search.root as usize {
        return 0;
    }
    let p = tree::up(net, v);
    let more = tree::rise(net, v);
    row[p] + more as u64
}

// Writes d(u) of every node, in that order.
#[tactic(auto, unfolding(tree::specs::Tree::tree_of, network::specs::Network::net_of))]
fn fill_distances(net: Network, order: &[u16], row: &mut [u64])
    requires { let g = lent net in
        Order (tree_of g) order.now
        × (length order.now ≡ length net.parents.now)
        × (length net.parents.now ≤ length row.old) }
    ensures { let g = lent net.entry in
        row.new ≡ row_with (dist (tree_of g)) (length net.entry.parents.now) row.old }
{
    for v in order {
        row[*v as usize] = next_distance(net, row, *v as usize);
    }
}

// Refusal 8, or d(u) of every node.
#[tactic(auto, unfolding(tree::specs::Tree::tree_of, network::specs::Network::net_of))]
fn walk(net: Network, row: &mut [u64]) -> Result<(), Refusal>
    requires { let g = lent net in
        Closed (tree_of g)
        × (length net.parents.now ≤ length row.old) }
    ensures { let g = lent net.entry in
        let new = row_with (dist (tree_of g)) (length net.entry.parents.now) row.old in
        (result ≡ refuse_at (routeless (tree_of g)) (length net.entry.parents.now) NoRoute)
        × (row.new ≡ if_taken result new row.old) }
{
    let mut order = [0u16; Memory::NODES];
    let found = in_order(net, &mut order);
    let None = found else {
        return rows::refused_at(Why::NoRoute, found);
    };
    fill_distances(net, &order[..net.parents.len()], row);
    Ok(())
}

// The lowest node whose parent is no node.
#[tactic(auto, unfolding(crate::specs::Survey::strays, tree::specs::Tree::tree_of, network::specs::Network::net_of))]
fn first_stray(net: Network) -> Option<usize>
    ensures { let g = lent net.entry in
        result ≡ first_to (strays (tree_of g)) (length net.entry.parents.now) }
{
    rows::lowest(net.parents.len(), |u| net.parents.len() <= tree::up(net, u))
}

// What a walk needs: refusals 1 and 10, 3, and 7 where a node's parent is no node.
#[tactic(auto, unfolding(crate::specs::Survey::closed_verdict, rows::specs::First::firstly, network::specs::Network::net_of, rows::specs::First::refuse_at))]
fn check_closed(net: Network, room: usize) -> Result<(), Refusal>
    ensures { let g = lent net.entry in
        result ≡ closed_verdict g room }
{
    tree::check_row(net.parents.len(), room)?;
    network::check_root(net.parents.len(), net.search.root)?;
    rows::refused_at(Why::BadParent, first_stray(net))
}

// d(u) of every node, into a lent row of at least n numbers, in O(n). Refusals 1, 10, 3, 7 where a node's parent is no node, and 8.
#[tactic(auto, unfolding(crate::specs::Survey::survey_verdict, crate::specs::Survey::survey_row, rows::specs::First::firstly, network::specs::Network::net_of))]
pub fn distances(net: Network, row: &mut [u64]) -> Result<(), Refusal>
    ensures { let g = lent net.entry in
        (result ≡ survey_verdict g row.old)
        × (row.new ≡ survey_row g row.old) }
{
    check_closed(net, row.len())?;
    walk(net, row)
}

// What node v knows of itself, and of its parent.
fn begun_at(net: Network, row: &[u64], v: usize) -> Known
    requires { let g = lent net in
        Under (tree_of g) row.now v }
    ensures { let g = lent net.entry in
        Begun (tree_of g) v result }
{
    if v == net.search.root as usize {
        return Known {
            up: v as u64,
            near: 0,
            count: 1,
            base: 0,
            turn: 0,
            deep: 0,
            beside: 0,
        };
    }
    let e = network::parent_of(net.parents, v);
    let l = network::link_at(net.links, e as usize);
    let p = network::other_end(l, v);
    let above = known_at(row, p);
    let d = above.near + l.length as u64;
    Known {
        up: p as u64,
        near: d,
        count: 1,
        base: d,
        turn: 0,
        deep: d,
        beside: 0,
    }
}

// Parents first: every node's own record.
#[tactic(auto, unfolding(tree::specs::Tree::tree_of, network::specs::Network::net_of))]
fn walk_down(net: Network, order: &[u16], row: &mut [u64])
    requires { let g = lent net in
        Order (tree_of g) order.now
        × (length order.now ≡ length net.parents.now)
        × (length net.parents.now ≤ nodes_in row.old) }
    ensures { let g = lent net.entry in
        Held (length net.entry.parents.now) row.old (Begun (tree_of g)) row.new }
{
    for v in order {
        let k = begun_at(net, row, *v as usize);
        put_known(row, *v as usize, k);
    }
}

// Of the two largest of some numbers the lower one, once a number is added.
#[tactic(auto, unfolding(crate::specs::Work::lower))]
fn lower_of(first: u64, next: u64, new: u64) -> u64
    ensures { result ≡ lower first next new }
{
    if first < new { first } else { next.max(new) }
}

// The largest of some numbers without one that is d, from the two largest.
#[tactic(auto, unfolding(crate::specs::Work::without))]
fn largest_but(first: u64, next: u64, d: u64) -> u64
    ensures { result ≡ without first next d }
{
    if d == first { next } else { first }
}

// A parent's record once a child's is added to it.
#[tactic(auto, unfolding(crate::specs::Work::with_child))]
fn with_child(p: Known, v: Known) -> Known
    requires { (p.count + v.count < 2 ^ 64) × (p.base + v.base < 2 ^ 64) }
    ensures { result ≡ with_child p v }
{
    Known {
        count: p.count + v.count,
        base: p.base + v.base,
        deep: p.deep.max(v.deep),
        beside: lower_of(p.deep, p.beside, v.deep),
        ..p
    }
}

// Adds the record of x to its parent's.
fn add_to_parent(row: &mut [u64], x: usize)
    requires { Adds row.old x }
    ensures { let old = row.old in
        let p = (known_at old x).up in
        row.new ≡ put_known old p (with_child (known_at old p) (known_at old x)) }
{
    let v = known_at(row, x);
    let p = v.up as usize;
    let k = with_child(known_at(row, p), v);
    put_known(row, p, k);
}

// Children first: sums and largest values of T(x).
fn walk_up(order: &[u16], row: &mut [u64])
    requires { (t : Tree) × (before : List ℕ) × Basis t order.now × Held t.size before (Begun t) row.old }
    ensures { (t : Tree) (before : List ℕ)
        → Basis t order.now
        → Held t.size before (Begun t) row.old
        → Held t.size before (Summed t) row.new }
{
    for i in (1..order.len()).rev() {
        add_to_parent(row, order[i] as usize);
    }
}

// Writes what is beside x, from its parent's two largest.
#[tactic(auto, unfolding(crate::specs::Work::with_beside, crate::specs::Work::with_aside))]
fn put_beside(row: &mut [u64], x: usize)
    requires { (x < nodes_in row.old) × ((known_at row.old x).up < nodes_in row.old) }
    ensures { let old = row.old in
        row.new ≡ put_known old x (with_beside (known_at old x) (known_at old (known_at old x).up)) }
{
    let v = known_at(row, x);
    let p = known_at(row, v.up as usize);
    let beside = largest_but(p.deep, p.beside, v.deep);
    put_known(row, x, Known { beside, ..v });
}

// Nothing is beside the root.
#[tactic(auto, unfolding(crate::specs::Work::with_aside))]
fn clear_beside(row: &mut [u64], x: usize)
    requires { x < nodes_in row.old }
    ensures { let old = row.old in
        row.new ≡ put_known old x (with_aside (known_at old x) 0) }
{
    let v = known_at(row, x);
    put_known(row, x, Known { beside: 0, ..v });
}

// Children first, since a parent's two largest are still in its record: what is beside each node.
fn walk_beside(order: &[u16], row: &mut [u64])
    requires { (t : Tree) × (before : List ℕ) × Basis t order.now × Held t.size before (Summed t) row.old }
    ensures { (t : Tree) (before : List ℕ)
        → Basis t order.now
        → Held t.size before (Summed t) row.old
        → Held t.size before (Sided t) row.new }
{
    for i in (1..order.len()).rev() {
        put_beside(row, order[i] as usize);
    }
    clear_beside(row, order[0] as usize);
}

// A node's record with the two numbers by which a sum is known.
#[tactic(auto, unfolding(crate::specs::Work::with_turn, crate::specs::Work::turned))]
fn with_turn(v: Known, p: Known) -> Known
    requires { Turns v p }
    ensures { result ≡ with_turn v p }
{
    let turn = p.turn + 2 * (v.count * (v.near - p.near));
    let base = v.base + turn - 2 * (v.count * v.near);
    Known { base, turn, ..v }
}

// Writes these two numbers of x, from its parent's.
fn put_turn(row: &mut [u64], x: usize)
    requires { let old = row.old in
        (x < nodes_in old) × ((known_at old x).up < nodes_in old) × Turns (known_at old x) (known_at old (known_at old x).up) }
    ensures { let old = row.old in
        row.new ≡ put_known old x (with_turn (known_at old x) (known_at old (known_at old x).up)) }
{
    let v = known_at(row, x);
    let p = known_at(row, v.up as usize);
    let k = with_turn(v, p);
    put_known(row, x, k);
}

// Parents first: the two numbers by which a sum is known.
fn walk_turns(order: &[u16], row: &mut [u64])
    requires { (t : Tree) × (before : List ℕ) × Basis t order.now × Held t.size before (Sided t) row.old }
    ensures { (t : Tree) (before : List ℕ)
        → Basis t order.now
        → Held t.size before (Sided t) row.old
        → Held t.size before (Told t) row.new }
{
    for i in 1..order.len() {
        put_turn(row, order[i] as usize);
    }
}

// Writes what is known of every node, in that order.
#[tactic(auto, unfolding(tree::specs::Tree::tree_of, network::specs::Network::net_of))]
fn write_known(net: Network, order: &[u16], row: &mut [u64])
    requires { let g = lent net in
        Order (tree_of g) order.now
        × (length order.now ≡ length net.parents.now)
        × (length net.parents.now ≤ nodes_in row.old) }
    ensures { let g = lent net.entry in
        let n = length net.entry.parents.now in
        row.new ≡ rows_to (λ x. known_row (known (tree_of g) x)) n ++ past_known n row.old }
{
    walk_down(net, order, row);
    walk_up(order, row);
    walk_beside(order, row);
    walk_turns(order, row);
}

// Refusal 8, or what is known of every node.
#[tactic(auto, unfolding(tree::specs::Tree::tree_of, network::specs::Network::net_of))]
fn know_all(net: Network, row: &mut [u64]) -> Result<(), Refusal>
    requires { let g = lent net in
        Closed (tree_of g)
        × (length net.parents.now ≤ nodes_in row.old) }
    ensures { let g = lent net.entry in
        let n = length net.entry.parents.now in
        let new = rows_to (λ x. known_row (known (tree_of g) x)) n ++ past_known n row.old in
        (result ≡ refuse_at (routeless (tree_of g)) n NoRoute)
        × (row.new ≡ if_taken result new row.old) }
{
    let mut order = [0u16; Memory::NODES];
    let lost = in_order(net, &mut order);
    let None = lost else {
        return rows::refused_at(Why::NoRoute, lost);
    };
    write_known(net, &order[..net.parents.len()], row);
    Ok(())
}

// What is known of every node, into a lent row of a record a node, in O(n). Refusals 1, 10, 3, 7 where a node's parent is no node,
// and 8.
#[tactic(auto, unfolding(crate::specs::Survey::surveyed_verdict, crate::specs::Survey::surveyed_row, rows::specs::First::firstly, network::specs::Network::net_of))]
pub fn fill(net: Network, row: &mut [u64]) -> Result<(), Refusal>
    ensures { let g = lent net.entry in
        (result ≡ surveyed_verdict g row.old)
        × (row.new ≡ surveyed_row g row.old) }
{
    check_closed(net, row.len() / WIDTH)?;
    know_all(net, row)
}

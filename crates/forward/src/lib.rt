// The forwarder of a branch router: the nodes over which a start is led to the root while the tree link of a node is down.
#![tactic(auto)]

ghost use Rattle.std.specs.Prelude.{◌≡◌, [], ◌∷◌, ◌++◌, reverse, ◌+◌, ◌<◌, ◌≤◌, length};
ghost use Rattle.std.proofs.lemmas.List.Edits.{sets};
ghost use Rattle.edition.specs.Limits.{route_room};
ghost use Rattle.rows.specs.Lists.{has, up_to};
ghost use Rattle.network.specs.Network.{lent, link_in};
ghost use Rattle.tree.specs.Tree.{tree_of, route, under, hops};
ghost use Rattle.forward.specs.Forward.{around};
ghost use Rattle.forward.specs.Answers.{ask_verdict, row_of, applies, ordinary_row, detour_row, row_for, used_part};
ghost use Rattle.forward.specs.Answers.{number_said, place_said, handed};
ghost use Rattle.forward.specs.Work.{Node, Upward, Reached, over_by, Around, Small, added, route_way, around_way, Cut, cut_applies, cut_row};

use edition::{Edition, Measure, Memory, Refusal, Swap, Why};
use network::Network;
use tree::Climb;

// What a router asks: where the list begins, the node whose tree link has failed, and the measure of its swap link.
#[derive(Clone, Copy)]
pub struct Ask {
    pub start: u16,
    pub failed: u16,
    pub measure: Measure,
}

// A list: how many nodes it has, and how long it is.
#[derive(Clone, Copy)]
pub struct Way {
    pub nodes: usize,
    pub length: u64,
}

// The row that applies, with the way of the list at its beginning.
#[derive(Clone, Copy)]
pub enum Applies {
    Ordinary(Way),
    Detour(Way),
}

// The way over a swap link: from its lower end to the other, and its length.
#[derive(Clone, Copy)]
struct Over {
    pub from: usize,
    pub to: usize,
    pub length: u16,
}

// Refusals 10, 15 and 16, of two rows of so many numbers.
#[tactic(auto, unfolding(crate::specs::Answers::ask_verdict, rows::specs::First::firstly))]
pub fn check_ask(
    n: usize,
    root: u16,
    ask: Ask,
    ordinary: usize,
    detour: usize,
) -> Result<(), Refusal>
    ensures { result ≡ ask_verdict n root ask ordinary detour }
{
    let short = ordinary < Memory::ROUTE_ROW || detour < Memory::ROUTE_ROW;
    rows::refuse_if(short, Why::NoRoom, 0)?;
    rows::refuse_if(n <= ask.start as usize, Why::BadStart, 0)?;
    let no_link = n <= ask.failed as usize || ask.failed == root;
    rows::refuse_if(no_link, Why::BadFailed, 0)
}

// Whether a climb to x ends at u: u is x, or the root.
#[tactic(auto, unfolding(rows::specs::Lists::has))]
fn is_end(root: usize, x: usize, u: usize) -> bool
    ensures { result ≡ has u (x ∷ root ∷ []) }
{
    x == u || root == u
}

// The climb from u to x, or to the root where x is not on its route.
fn climb_to(net: Network, x: usize, u: usize) -> Climb
    requires { let g = lent net in Node g u }
    ensures { let g = lent net.entry in
        Reached (tree_of g) x u result }
{
    let mut c = Climb::begin(u);
    while !is_end(net.search.root as usize, x, c.node) {
        c = c.step(net);
    }
    c
}

// Writes the nodes from u up to x, x among them, from place `at` on.
fn write_up(net: Network, x: usize, u: usize, row: &mut [u16], at: usize)
    requires { let g = lent net in
        Upward g x u × (at ≤ route_room) × (at + hops (tree_of g) x u < length row.old) }
    ensures { let t = tree_of (lent net.entry) in
        row.new ≡ sets row.old at (up_to x (route t u) ++ (x ∷ [])) }
{
    let mut node = u;
    let mut k = at;
    while node != x {
        row[k] = node as u16;
        node = tree::up(net, node);
        k += 1;
    }
    row[k] = x as u16;
}

// Writes the nodes from below x down to z, which is so many hops below it, from place `at` on.
fn write_down(net: Network, x: usize, z: usize, row: &mut [u16], at: usize, far: usize)
    requires { let g = lent net in
        Upward g x z × (far ≡ hops (tree_of g) x z) × (at ≤ route_room) × (at + far ≤ length row.old) }
    ensures { let t = tree_of (lent net.entry) in
        row.new ≡ sets row.old at (reverse (up_to x (route t z))) }
{
    let mut node = z;
    for left in (0..far).rev() {
        row[at + left] = node as u16;
        node = tree::up(net, node);
    }
}

// Whether x is on the route of u.
fn is_under(net: Network, x: usize, u: usize) -> bool
    requires { let g = lent net in Node g u }
    ensures { let g = lent net.entry in
        result ≡ under (tree_of g) x u }
{
    climb_to(net, x, u).node == x
}

// Lists the route of u at the beginning of a row.
fn list_route(net: Network, u: usize, row: &mut [u16]) -> Way
    requires { let g = lent net in
        Node g u × (route_room ≤ length row.old) }
    ensures { let t = tree_of (lent net.entry) in
        (result ≡ route_way t u) × (row.new ≡ row_of (route t u) row.old) }
{
    let root = net.search.root as usize;
    let up = climb_to(net, root, u);
    write_up(net, root, u, row, 0);
    Way {
        nodes: up.hops + 1,
        length: up.dist,
    }
}

// Writes the way around at the beginning of a row: from u up to x, down to the lower end of a link, and the route of its other end. u is
// `up` hops below x, and the lower end `down` hops.
fn write_around(
    net: Network,
    x: usize,
    u: usize,
    over: Over,
    up: usize,
    down: usize,
    row: &mut [u16],
)
    requires { let g = lent net in
        Around g x u over.from over.to
        × (up ≡ hops (tree_of g) x u)
        × (down ≡ hops (tree_of g) x over.from)
        × (route_room ≤ length row.old) }
    ensures { let t = tree_of (lent net.entry) in
        row.new ≡ row_of (around t x over.from over.to u) row.old }
{
    let at = up + 1;
    let last = at + down;
    write_up(net, x, u, row, 0);
    write_down(net, x, over.from, row, at, down);
    write_up(net, net.search.root as usize, over.to, row, last);
}

// What three climbs and a link add up to: up to the failed node, from below it down, across, and on to the root.
#[tactic(auto, unfolding(crate::specs::Work::added))]
fn add_up(up: Climb, down: Climb, rest: Climb, length: u16) -> Way
    requires { Small up down rest }
    ensures { result ≡ added up down rest length }
{
    Way {
        nodes: up.hops + 1 + down.hops + rest.hops + 1,
        length: up.dist + down.dist + length as u64 + rest.dist,
    }
}

// Lists the way around at the beginning of a row, over a link.
fn list_around(net: Network, x: usize, u: usize, over: Over, row: &mut [u16]) -> Way
    requires { let g = lent net in
        Around g x u over.from over.to × (route_room ≤ length row.old) }
    ensures { let t = tree_of (lent net.entry) in
        (result ≡ around_way t x over.from over.to over.length u)
        × (row.new ≡ row_of (around t x over.from over.to u) row.old) }
{
    let up = climb_to(net, x, u);
    let down = climb_to(net, x, over.from);
    let rest = climb_to(net, net.search.root as usize, over.to);
    write_around(net, x, u, over, up.hops, down.hops, row);
    add_up(up, down, rest, over.length)
}

// The way over a swap link, by the mark of its lower end.
#[tactic(auto, unfolding(crate::specs::Work::over_by))]
fn over_link(links: &[u16], swap: Swap) -> Over
    ensures { result ≡ over_by (link_in links.now swap.link) swap.lower }
{
    let l = network::link_at(links, swap.link as usize);
    let (from, to) = if swap.lower == Edition::FIRST {
        (l.first, l.second)
    } else {
        (l.second, l.first)
    };
    Over {
        from: from as usize,
        to: to as usize,
        length: l.length,
    }
}

// For a start that is cut off: 17 where the failed node has no swap link, else the detour at the beginning of its row.
fn detour_by(net: Network, survey: &[u64], ask: Ask, row: &mut [u16]) -> Result<Applies, Refusal>
    requires { let g = lent net in
        Cut g survey.now ask × (route_room ≤ length row.old) }
    ensures { let g = lent net.entry in
        (result ≡ cut_applies g ask) × (row.new ≡ cut_row g ask row.old) }
{
    let x = ask.failed as usize;
    let entry = table::entry_surveyed(net, survey, x);
    rows::refuse_if(entry.state != Edition::SWAP, Why::NoSwap, x)?;
    let swap = edition::swap_by(entry, ask.measure);
    let over = over_link(net.links, swap);
    Ok(Applies::Detour(list_around(net, x, ask.start as usize, over, row)))
}

// The list for a start while the tree link of a node is down, at the beginning of the row that applies: the ordinary row where the
// start is not cut off, else the detour row. The other row, and what lies past the list, stay. 10 where a row has fewer than 1,022
// numbers. Refusals 1 to 4, 14, 5 to 10, 15, 16 and 17, on which both rows stay.
pub fn fill(
    net: Network,
    ask: Ask,
    ordinary: &mut [u16],
    detour: &mut [u16],
) -> Result<Applies, Refusal>
    ensures { let g = lent net.entry in
        let o = ordinary.old in
        let d = detour.old in
        (result ≡ applies g ask o d)
        × (ordinary.new ≡ ordinary_row g ask o d)
        × (detour.new ≡ detour_row g ask o d) }
{
    let mut survey = [0u64; survey::ROW];
    sound::survey_network(net, &mut survey)?;
    check_ask(
        net.parents.len(),
        net.search.root,
        ask,
        ordinary.len(),
        detour.len(),
    )?;
    let u = ask.start as usize;
    if is_under(net, ask.failed as usize, u) {
        return detour_by(net, &survey, ask, detour);
    }
    Ok(Applies::Ordinary(list_route(net, u, ordinary)))
}

// The used part of the row that applies, as that part of the lent row and no copy; an empty part on a refusal.
#[tactic(auto, unfolding(crate::specs::Answers::used_part))]
pub fn part<'a>(ordinary: &'a [u16], detour: &'a [u16], it: Result<Applies, Refusal>) -> &'a [u16]
    ensures part { result.now ≡ used_part it ordinary.now detour.now }
    // The part begins where that row does: `.ptr .0` is whose numbers they are, `.ptr .1` where in them.
    ensures place { (result.ref_ptr.0 ≡ row_for it ordinary.entry.ref_ptr.0 detour.entry.ref_ptr.0)
        × (result.ref_ptr.1 ≡ row_for it ordinary.entry.ref_ptr.1 detour.entry.ref_ptr.1) }
{
    match it {
        Ok(Applies::Ordinary(way)) => &ordinary[..way.nodes.min(ordinary.len())],
        Ok(Applies::Detour(way)) => &detour[..way.nodes.min(detour.len())],
        Err(_) => &ordinary[..0],
    }
}

// The number of a refusal, 0 where there is none.
pub fn number_of(it: Result<Applies, Refusal>) -> u16
    ensures { result ≡ number_said it }
{
    match it {
        Ok(_) => 0,
        Err(refusal) => edition::number(refusal.why),
    }
}

// The place of a refusal, 0 where there is none.
pub fn place_of(it: Result<Applies, Refusal>) -> usize
    ensures { result ≡ place_said it }
{
    match it {
        Ok(_) => 0,
        Err(refusal) => refusal.place,
    }
}

// The used part of the row that applies, and apart from it the number and the place of a refusal, 0 and 0 where there is none. What the
// two rows then hold is promised by `fill`, which writes them: while a part of a row is out, nothing can be said of that row.
#[tactic(auto, unfolding(crate::specs::Answers::handed))]
pub fn forward<'a>(
    net: Network,
    ask: Ask,
    ordinary: &'a mut [u16],
    detour: &'a mut [u16],
    number: &mut u16,
    place: &mut usize,
) -> &'a [u16]
    ensures part { let g = lent net.entry in
        let it = applies g ask ordinary.old detour.old in
        (result.now ≡ handed g ask ordinary.old detour.old)
        × (number.new ≡ number_said it)
        × (place.new ≡ place_said it) }
    // It is a part of that row and begins where the row does.
    ensures place { let g = lent net.entry in
        let it = applies g ask ordinary.old detour.old in
        (result.ref_ptr.0 ≡ row_for it ordinary.entry.ref_ptr.0 detour.entry.ref_ptr.0)
        × (result.ref_ptr.1 ≡ row_for it ordinary.entry.ref_ptr.1 detour.entry.ref_ptr.1) }
{
    let it = fill(net, ask, ordinary, detour);
    *number = number_of(it);
    *place = place_of(it);
    part(ordinary, detour, it)
}

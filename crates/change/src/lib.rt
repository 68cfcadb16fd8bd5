// The change of one link outside the tree: its verdict, its application, and one after the other.
#![tactic(auto)]

ghost use Rattle.std.specs.Prelude.{◌≡◌, List, ℕ, ◌<◌, ◌≤◌, length};
ghost use Rattle.edition.specs.declared.Search.{Search};
ghost use Rattle.edition.specs.Limits.{node_limit};
ghost use Rattle.edition.specs.Refusals.{taken};
ghost use Rattle.network.specs.Network.{lent, net_of};
ghost use Rattle.tree.specs.Tree.{tree_of, under};
ghost use Rattle.survey.specs.Row.{nodes_in};
ghost use Rattle.sound.specs.Sound.{net_verdict};
ghost use Rattle.sound.specs.Surveyed.{Surveyed, sound_row};
ghost use Rattle.change.specs.Change.{breaks, change_verdict, set_link, mended, Lent, changed};
ghost use Rattle.change.specs.Work.{flip, flipped_at, Moved, Short};

use edition::{Change, Edition, Memory, Refusal, Search, Why};
use network::{Link, Network};

// Whether the change sets a link in service whose new length breaks shortness, by a survey of the network.
fn breaks_short(links: &[u16], survey: &[u64], change: Change) -> bool
    requires { (parents : List ℕ) × (search : Search) × Short links.now parents search survey.now change }
    ensures { (parents : List ℕ) (search : Search)
        → Short links.now parents search survey.now change
        → result ≡ breaks (net_of links.now parents search) change }
{
    if change.mark != Edition::SERVED {
        return false;
    }
    let l = network::link_at(links, change.link as usize);
    let p = survey::known_at(survey, l.first as usize);
    let q = survey::known_at(survey, l.second as usize);
    !sound::keeps_short(p.near, q.near, change.length)
}

// Whether a change is taken, and in a row to work in the survey of the network.
fn judge(net: Network, survey: &mut [u64], entries: &[u64], change: Change) -> Result<(), Refusal>
    requires { node_limit ≤ nodes_in survey.old }
    ensures { let g = lent net.entry in
        (result ≡ change_verdict g entries.now change)
        × (survey.new ≡ sound_row g survey.old) }
{
    let e = change.link as usize;
    table::survey_table(net, survey, entries)?;
    rows::refuse_if(network::links_in(net.links) <= e, Why::LinkMissing, 0)?;
    rows::refuse_if(network::bad_mark(change.mark), Why::BadMark, e)?;
    rows::refuse_if(network::is_parent(net.parents, e), Why::TreeLink, e)?;
    rows::refuse_if(breaks_short(net.links, survey, change), Why::BreaksShort, e)
}

// Whether a change is taken: 1 to 4, 14, 5 to 10, 11, 6 with the changed link as its place, 12, 13. Nothing is written.
pub fn check_change(net: Network, entries: &[u64], change: Change) -> Result<(), Refusal>
    ensures { let g = lent net.entry in
        result ≡ change_verdict g entries.now change }
{
    let mut survey = [0u64; survey::ROW];
    judge(net, &mut survey, entries, change)
}

// What the row has for node c is turned round: 0 becomes 1 and 1 becomes 0.
#[tactic(auto, unfolding(crate::specs::Work::flipped_at, crate::specs::Work::flip))]
fn flip_at(asked: &mut [u64], c: usize)
    requires { c < length asked.old }
    ensures { asked.new ≡ flipped_at c asked.old }
{
    asked[c] = u64::from(asked[c] == 0);
}

// What the row has for the nodes on the route of u is turned round: 0 becomes 1 and 1 becomes 0.
fn flip_up(net: Network, asked: &mut [u64], u: usize)
    requires { let g = lent net in
        let n = length net.parents.now in
        (net_verdict g ≡ taken)
        × (u < n)
        × (n ≤ length asked.old) }
    ensures { let g = lent net.entry in
        Moved (λ x. under (tree_of g) x u) flip asked.old asked.new }
{
    let mut c = u;
    while c != net.search.root as usize {
        flip_at(asked, c);
        c = tree::up(net, c);
    }
    flip_at(asked, c);
}

// Stores a length and a service mark in the record of link e, whose other numbers stay.
#[tactic(auto, unfolding(crate::specs::Change::set_link))]
fn set_link(links: &mut [u16], e: usize, length: u16, mark: u16)
    ensures { links.new ≡ set_link links.old (record { link = e; mark = mark; length = length }) }
{
    let l = network::link_at(links, e);
    network::put_link(
        links,
        e,
        Link {
            first: l.first,
            second: l.second,
            length,
            mark,
        },
    );
}

// Makes a change that is taken: the record, and afresh the entries of the nodes whose tree link lies on the tree path between the
// link's ends. The survey of the network is that of the changed one too, since the tree stays.
fn apply(
    links: &mut [u16],
    parents: &[u16],
    search: Search,
    survey: &[u64],
    entries: &mut [u64],
    change: Change,
)
    requires { let g = net_of links.old parents.now search in
        (change_verdict g entries.old change ≡ taken)
        × Surveyed g survey.now }
    ensures { let g = net_of links.old parents.now search in
        let links' = set_link links.old change in
        let g' = net_of links' parents.now search in
        (links.new ≡ links')
        × (entries.new ≡ mended g g' change.link entries.old) }
{
    let l = network::link_at(links, change.link as usize);
    let mut asked = [0u64; Memory::NODES];
    let before = Network {
        links,
        parents,
        search,
    };
    flip_up(before, &mut asked, l.first as usize);
    flip_up(before, &mut asked, l.second as usize);
    set_link(links, change.link as usize, change.length, change.mark);
    let after = Network {
        links,
        parents,
        search,
    };
    table::refresh_surveyed(after, survey, &asked, entries);
}

// The change of one link. Refused, it changes nothing lent. Taken, it changes that link's record alone, and the table that was
// right is right again.
pub fn change(
    links: &mut [u16],
    parents: &[u16],
    search: Search,
    entries: &mut [u64],
    change: Change,
) -> Result<(), Refusal>
    ensures { let lent : Lent = record { links = links.entry.now; entries = entries.old } in
        let g = net_of links.entry.now parents.now search in
        let after = changed parents.now search change lent in
        (result ≡ change_verdict g lent.entries change)
        × (links.exit.now ≡ after.links)
        × (entries.new ≡ after.entries) }
{
    let mut survey = [0u64; survey::ROW];
    let net = Network {
        links,
        parents,
        search,
    };
    judge(net, &mut survey, entries, change)?;
    apply(links, parents, search, &survey, entries, change);
    Ok(())
}

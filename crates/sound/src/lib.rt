// The check of a network and its tree: refusals 8 and 9, and 1 to 9 with 14 in their order.
#![tactic(auto)]

ghost use Rattle.std.specs.Prelude.{◌≡◌, ◌<◌, ◌≤◌};
ghost use Rattle.edition.specs.Limits.{node_limit};
ghost use Rattle.rows.specs.First.{first_to};
ghost use Rattle.network.specs.Network.{links_in, link_in, lent};
ghost use Rattle.survey.specs.Row.{nodes_in};
ghost use Rattle.sound.specs.Sound.{keeps_short, net_verdict, checked, handed_up};
ghost use Rattle.sound.specs.Surveyed.{plain_verdict, sound_verdict, sound_row};
ghost use Rattle.sound.specs.Work.{breaks_by, Passed, tree_verdict, breaks_in, Ended, tree_row};

use edition::{Memory, Refusal, Search, Why};
use network::{Link, Network};

// How large a network is.
#[derive(Clone, Copy)]
pub struct Sizes {
    pub nodes: usize,
    pub links: usize,
}

// The two inequalities, of two distances and a length.
#[tactic(auto, unfolding(crate::specs::Sound::keeps_short))]
pub fn keeps_short(p: u64, q: u64, w: u16) -> bool
    ensures { result ≡ keeps_short p q w }
{
    p.abs_diff(q) <= w as u64
}

// Whether the link is in service and breaks shortness, by a row of distances.
#[tactic(auto, unfolding(crate::specs::Work::breaks_by))]
fn breaks_by(row: &[u64], l: Link) -> bool
    ensures { result ≡ breaks_by row.now l }
{
    if !network::in_service(l) {
        return false;
    }
    let p = rows::wide_at(row, l.first as usize);
    let q = rows::wide_at(row, l.second as usize);
    !keeps_short(p, q, l.length)
}

// The lowest link that breaks shortness, by a row of distances.
fn first_breaking(links: &[u16], row: &[u64]) -> Option<usize>
    ensures { result ≡ first_to (λ e. breaks_by row.now (link_in links.now e)) (links_in links.now) }
{
    rows::lowest(
        network::links_in(links),
        |e| breaks_by(row, network::link_at(links, e)),
    )
}

// Refusals 8 and 9, by one walk over the nodes and one over the links.
fn check_tree(net: Network) -> Result<(), Refusal>
    requires { let g = lent net in
        Passed g }
    ensures { let g = lent net.entry in
        result ≡ tree_verdict g }
{
    let mut row = [0u64; Memory::NODES];
    survey::distances(net, &mut row)?;
    rows::refused_at(Why::NotShort, first_breaking(net.links, &row))
}

// Refusals 1 to 4, 14, 5 to 7, in this order.
#[tactic(auto, unfolding(crate::specs::Surveyed::plain_verdict, rows::specs::First::firstly, network::specs::Network::net_of))]
fn check_plain(net: Network) -> Result<(), Refusal>
    ensures { let g = lent net.entry in
        result ≡ plain_verdict g }
{
    network::check_sizes(
        Memory::limits(),
        net.parents.len(),
        network::links_in(net.links),
        net.search,
    )?;
    network::check_ends(net.links, net.parents.len())?;
    network::check_marks(net.links)?;
    network::check_parents(net)
}

// Refusals 1 to 4, 14, 5 to 9, in this order.
fn verdict(net: Network) -> Result<(), Refusal>
    ensures { let g = lent net.entry in
        result ≡ net_verdict g }
{
    check_plain(net)?;
    check_tree(net)
}

// The check of a network and its tree: sound, with its sizes, or the first refusal of 1 to 4, 14, 5 to 9.
#[tactic(auto, unfolding(crate::specs::Sound::checked, network::specs::Network::net_of))]
pub fn check_network(net: Network) -> Result<Sizes, Refusal>
    ensures { let g = lent net.entry in
        result ≡ checked g }
{
    verdict(net)?;
    Ok(Sizes {
        nodes: net.parents.len(),
        links: network::links_in(net.links),
    })
}

// What is handed up of a check: its refusal unchanged, or that nothing is refused.
pub fn handed_up(said: Result<Sizes, Refusal>) -> Result<(), Refusal>
    ensures { result ≡ handed_up said }
{
    said?;
    Ok(())
}

// Whether the link is in service and breaks shortness, by a survey.
#[tactic(auto, unfolding(crate::specs::Work::breaks_in))]
fn breaks_in(survey: &[u64], l: Link) -> bool
    requires { (l.first < nodes_in survey.now) × (l.second < nodes_in survey.now) }
    ensures { result ≡ breaks_in survey.now l }
{
    if !network::in_service(l) {
        return false;
    }
    let p = survey::known_at(survey, l.first as usize);
    let q = survey::known_at(survey, l.second as usize);
    !keeps_short(p.near, q.near, l.length)
}

// The lowest link that breaks shortness, by a survey.
fn first_breaking_in(links: &[u16], survey: &[u64]) -> Option<usize>
    requires { Ended links.now (nodes_in survey.now) }
    ensures { result ≡ first_to (λ e. breaks_in survey.now (link_in links.now e)) (links_in links.now) }
{
    for e in 0..network::links_in(links) {
        if breaks_in(survey, network::link_at(links, e)) {
            return Some(e);
        }
    }
    None
}

// Refusals 8 and 9, and a survey of the nodes.
fn survey_tree(net: Network, survey: &mut [u64]) -> Result<(), Refusal>
    requires { let g = lent net in
        Passed g
        × (node_limit ≤ nodes_in survey.old) }
    ensures { let g = lent net.entry in
        (result ≡ tree_verdict g)
        × (survey.new ≡ tree_row g survey.old) }
{
    survey::fill(net, survey)?;
    rows::refused_at(Why::NotShort, first_breaking_in(net.links, survey))
}

// The check of a network and its tree, and in a lent row the survey of its nodes, which stands there where 1 to 8 and 14 refuse
// nothing. Before all of these 10, where the row holds fewer records than memory has nodes.
pub fn survey_network(net: Network, survey: &mut [u64]) -> Result<(), Refusal>
    ensures { let g = lent net.entry in
        (result ≡ sound_verdict g survey.old)
        × (survey.new ≡ sound_row g survey.old) }
{
    rows::refuse_if(survey::nodes_in(survey) < Memory::NODES, Why::NoRoom, 0)?;
    check_plain(net)?;
    survey_tree(net, survey)
}

//! The slack of a channel from labels and a way that are proposed. They are tested, so whoever proposes them need not
//! be believed.

ghost use Rattle.std.specs.Prelude.{◌≡◌, ◌+◌, ◌<◌, ◌≤◌, length, IfOk, IfSome, IsTrue};
ghost use Rattle.lid_graph.specs.Rateable.{IsRateable};
ghost use Rattle.lid_graph.specs.Ratios.{IsRatio};
ghost use Rattle.lid_slack.specs.Labelled.{present_marking, IsWayRatio};
ghost use Rattle.lid_slack.specs.Told.{IsCertified, IsSlackAndNext};
ghost use Rattle.lid_slack.specs.Trials.{IsPresent, CanProbe, ShowsPresent, marking_with, ProbeKeeps};
ghost use Rattle.lid_slack_longer.specs.Longer.{last_station, producer, KeepsAt};
ghost use Rattle.lid_stations.specs.Placed.{links_in};
ghost use Rattle.lid_stations.specs.Placements.{links_of};

use crate::answer::PlainSlack;
use crate::certified::Certified;
use crate::finding::slack_certified;
use crate::trial::{Probe, is_below, part_of, producer, ratio_of};
use lid_graph::Graph;
use lid_rate_ratio::{Ratio, edge, lowest, tokens_on};
use lid_slack_guess::{Proposal, Ways, propose};
use lid_slack_longer::{Chain, are_labels, is_way, last_station, room};
use lid_stations::Placed;
use std::alloc::{AllocError, Global};

/// The most edges of a way.
const MOST_EDGES: usize = 262_144;

/// The present ratio of a channel's component.
fn present_ratio(placed: &Placed<'_>, present: &Certified, channel: u32) -> Ratio
    requires present { IsCertified (links_in placed.now) placed.now.placement present.now }
    requires channel { channel < length placed.now.system.channels }
    ensures { IsPresent placed.now.system placed.now.placement channel result.p result.q }
{
    let number = part_of(
        &present.graph,
        &present.cert,
        producer(placed.system, channel),
    );
    ratio_of(&present.cert, number)
}

/// Whether labels show that a ratio is kept with so many further relay stations.
fn do_labels_show(
    probe: &Probe<'_>,
    graph: &Graph,
    more: u32,
    ratio: Ratio,
    labels: &[Option<u64>],
) -> bool
    requires can { CanProbe probe.now more }
    requires some { 1 ≤ more }
    requires graph { graph.now ≡ present_marking probe.now }
    ensures { IsTrue result → KeepsAt (links_of probe.now.system.now) probe.now.placement.now probe.now.channel more ratio.p ratio.q }
{
    let chain = Chain {
        station: last_station(probe.placement, probe.channel),
        more,
    };
    let start = producer(probe.system, probe.channel);
    are_labels(graph, chain, start, ratio.p, ratio.q, labels)
}

/// Whether labels show that the present ratio is kept with so many further relay stations. With none it is.
fn is_present_kept(probe: &Probe<'_>, graph: &Graph, added: u32, labels: &[Option<u64>]) -> bool
    requires can { CanProbe probe.now added }
    requires present { ShowsPresent probe.now }
    requires graph { graph.now ≡ present_marking probe.now }
    ensures { IsTrue result → ProbeKeeps probe.now added }
{
    if added == 0 {
        return true;
    }
    do_labels_show(probe, graph, added, probe.present, labels)
}

/// The ratio of the closed walk that a way makes with so many further relay stations after a channel's last station, if
/// it is a way.
fn way_ratio(probe: &Probe<'_>, graph: &Graph, more: u32, way: &[u32]) -> Option<Ratio>
    requires can { CanProbe probe.now more }
    requires graph { graph.now ≡ present_marking probe.now }
    requires rateable { IsRateable graph.now }
    ensures { IfSome result (λ ratio. IsWayRatio graph.now (last_station probe.now.placement.now probe.now.channel) more way.now ratio.p ratio.q) }
{
    let station = last_station(probe.placement, probe.channel);
    if way.len() > MOST_EDGES || !is_way(graph, station, way) {
        return None;
    }
    let tokens = u64::from(edge(graph, 2 * station).tokens) + tokens_on(graph, way);
    let edges = u64::from(more) + 1 + way.len() as u64;
    Some(lowest(tokens, edges))
}

/// The ratio of a channel's component with so many further relay stations, if a way shows that it is no higher and
/// below the present one, and labels that it is no lower.
fn lower_ratio(
    probe: &Probe<'_>,
    graph: &Graph,
    more: u32,
    way: &[u32],
    labels: &[Option<u64>],
) -> Option<Ratio>
    requires can { CanProbe probe.now more }
    requires some { 1 ≤ more }
    requires present { ShowsPresent probe.now }
    requires graph { graph.now ≡ present_marking probe.now }
    requires rateable { IsRateable graph.now }
    ensures lowers { IfSome result (λ ratio. ProbeKeeps probe.now more → ⊥) }
    ensures ratio { IfSome result (λ ratio. IsRatio (marking_with probe.now more) (producer (links_of probe.now.system.now) probe.now.channel)
        ratio.p ratio.q) }
{
    let Some(ratio) = way_ratio(probe, graph, more, way) else {
        return None;
    };
    if !is_below(ratio, probe.present) || !do_labels_show(probe, graph, more, ratio, labels) {
        return None;
    }
    Some(ratio)
}

/// The slack of a channel and the ratio with one more, if what is proposed shows them: labels that the present ratio is
/// kept, and a way and labels what the ratio is with one more, where there is room for it. `present` is what `certify`
/// made. It takes no memory, and looks twice at each edge of the present marked graph.
pub fn slack_shown(
    placed: &Placed<'_>,
    present: &Certified,
    channel: u32,
    proposal: &Proposal,
) -> Option<PlainSlack>
    requires present { IsCertified (links_in placed.now) placed.now.placement present.now }
    requires channel { channel < length placed.now.system.channels }
    ensures { IfSome result (IsSlackAndNext (links_in placed.now) placed.now.placement channel) }
{
    let most = room(placed.placement, channel);
    let added = proposal.added;
    if added > most {
        return None;
    }
    let probe = Probe {
        system: placed.system,
        placement: placed.placement,
        channel,
        present: present_ratio(placed, present, channel),
    };
    let graph = &present.graph;
    if !is_present_kept(&probe, graph, added, &proposal.kept) {
        return None;
    }
    if added == most {
        return Some(PlainSlack { added, next: None });
    }
    match lower_ratio(&probe, graph, added + 1, &proposal.way, &proposal.next) {
        Some(ratio) => Some(PlainSlack {
            added,
            next: Some(ratio),
        }),
        None => None,
    }
}

/// The slack of a channel and the ratio with one more: as they are shown by what is proposed, else by certificates.
///
/// # Errors
/// Where there is no memory.
pub fn slack_found(
    alloc: Global,
    placed: &Placed<'_>,
    present: &Certified,
    channel: u32,
    proposal: &Proposal,
) -> Result<PlainSlack, AllocError>
    requires present { IsCertified (links_in placed.now) placed.now.placement present.now }
    requires channel { channel < length placed.now.system.channels }
    ensures { IfOk result (IsSlackAndNext (links_in placed.now) placed.now.placement channel) }
{
    if let Some(found) = slack_shown(placed, present, channel, proposal) {
        return Ok(found);
    }
    let all = slack_certified(alloc, placed, present, channel)?;
    Ok(PlainSlack {
        added: all.slack.added,
        next: all.next,
    })
}

/// The slack of a channel and the ratio with one more, by shortest ways in the present marked graph, which the search
/// finds; it is kept from one channel to the next.
///
/// # Errors
/// Where there is no memory.
pub fn slack_by_ways(
    alloc: Global,
    placed: &Placed<'_>,
    present: &Certified,
    channel: u32,
    ways: &mut Ways,
) -> Result<PlainSlack, AllocError>
    requires present { IsCertified (links_in placed.now) placed.now.placement present.now }
    requires channel { channel < length placed.now.system.channels }
    ensures { IfOk result (IsSlackAndNext (links_in placed.now) placed.now.placement channel) }
{
    let most = room(placed.placement, channel);
    propose(ways, &present.graph, &present.cert, channel, most)?;
    slack_found(alloc, placed, present, channel, &ways.proposal)
}

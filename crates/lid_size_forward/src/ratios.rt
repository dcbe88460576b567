//! Forward ratios of all components at once, where closed walks have them and labels show that none is
//! lower.

ghost use Rattle.std.specs.Prelude.{◌≡◌, ℕ, ◌+◌, ◌*◌, ◌<◌, ◌≤◌, ◌^◌, ◌↔◌, length, slice_index, None, IsTrue, IfOk, IfSome};
ghost use Rattle.lid_graph.specs.Walks.{edge_at};
ghost use Rattle.lid_rate.specs.Rates.{AreLabels};
ghost use Rattle.lid_size_forward.specs.ForwardParts.{HasStations, AreForwardRatios};
ghost use Rattle.lid_size_forward.specs.ForwardWalks.{HasForwardWalk, IsForwardWalkAt, HasForwardWalks, AreWalksBelow, MeetForwardRule, ShowsRatios};

use crate::walks::{are_forward, is_forward, walk_at};
use lid_graph::{Edge, Graph, is_closed_walk, walk_start};
use lid_rate_ratio::{Ratio, edge, lowest, tokens_on};
use lid_size_guess::Forwards;
use std::alloc::{AllocError, Global};

/// The ratio of a walk, where it is a closed forward walk of the component whose least transition is
/// `label`.
fn walk_ratio(
    graph: &Graph,
    stations: u32,
    least: &[u32],
    label: u32,
    walk: &[u32],
) -> Option<Ratio>
    requires graph { HasStations graph.now stations }
    requires labels { AreLabels graph.now least.now }
    ensures some { IfSome result (HasForwardWalk graph.now stations label) }
    ensures none { result ≡ None → IsForwardWalkAt graph.now stations least.now label walk.now → ⊥ }
{
    if walk.len() > 262_144 || !is_closed_walk(graph, walk) || !are_forward(stations, walk) {
        return None;
    }
    if least[walk_start(graph, walk) as usize] != label {
        return None;
    }
    Some(lowest(tokens_on(graph, walk), walk.len() as u64))
}

/// The ratio of the walk of each component, for each of its transitions.
fn walk_ratios(
    alloc: Global,
    graph: &Graph,
    stations: u32,
    least: &[u32],
    forwards: &Forwards,
) -> Result<Option<Vec<Ratio>>, AllocError>
    requires graph { HasStations graph.now stations }
    requires labels { AreLabels graph.now least.now }
    ensures some { IfOk result (λ found. IfSome found (λ wants. AreWalksBelow graph.now stations least.now graph.now.nodes wants.items)) }
    ensures none { IfOk result (λ found. found ≡ None → HasForwardWalks graph.now stations least.now forwards.now.walks forwards.now.ends → ⊥) }
{
    let mut wants = Vec::new(alloc);
    for v in 0..graph.nodes {
        let label = least[v as usize];
        if label == v {
            let walk = walk_at(forwards.walks.as_slice(), forwards.ends.as_slice(), v);
            let Some(want) = walk_ratio(graph, stations, least, v, walk) else {
                return Ok(None);
            };
            wants.push(want)?;
        } else {
            wants.push(wants[label as usize])?;
        }
    }
    Ok(Some(wants))
}

/// Whether the label at the end of an edge is as large as it asks.
fn is_met(along: Edge, labels: &[u64], want: Ratio) -> bool
    requires from { along.from < length labels.now }
    requires to { along.to < length labels.now }
    ensures { IsTrue result ↔ (slice_index labels.now along.from + want.p ≤ slice_index labels.now along.to + want.q * along.tokens) }
{
    let asked = u128::from(labels[along.from as usize]) + u128::from(want.p);
    let taken = u128::from(want.q) * u128::from(along.tokens);
    asked <= u128::from(labels[along.to as usize]) + taken
}

/// Whether labels are as large as all forward edges ask.
fn meet_rule(graph: &Graph, stations: u32, wants: &[Ratio], labels: &[u64]) -> bool
    requires graph { HasStations graph.now stations }
    requires wants { length wants.now ≡ graph.now.nodes }
    requires labels { length labels.now ≡ graph.now.nodes }
    ensures { IsTrue result ↔ MeetForwardRule graph.now stations wants.now labels.now }
{
    for k in 0..graph.edges.len() {
        let along = edge(graph, k as u32);
        let want = wants[along.from as usize];
        if is_forward(stations, k as u32) && !is_met(along, labels, want) {
            return false;
        }
    }
    true
}

/// The forward ratios that a guess shows, if it does.
///
/// # Errors
/// Where there is no memory.
pub(crate) fn shown_ratios(
    alloc: Global,
    graph: &Graph,
    stations: u32,
    least: &[u32],
    forwards: &Forwards,
) -> Result<Option<Vec<Ratio>>, AllocError>
    requires graph { HasStations graph.now stations }
    requires labels { AreLabels graph.now least.now }
    ensures some { IfOk result (λ found. IfSome found (λ wants. AreForwardRatios graph.now stations wants.items)) }
    ensures none { IfOk result (λ found. found ≡ None → ShowsRatios graph.now stations least.now forwards.now → ⊥) }
{
    if forwards.labels.len() != graph.nodes as usize {
        return Ok(None);
    }
    let Some(wants) = walk_ratios(alloc, graph, stations, least, forwards)? else {
        return Ok(None);
    };
    if meet_rule(graph, stations, &wants, forwards.labels.as_slice()) {
        Ok(Some(wants))
    } else {
        Ok(None)
    }
}

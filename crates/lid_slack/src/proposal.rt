//! A guess of the slack of a channel, by a longest walk from where its last station is drained to where it is
//! filled. It says nothing of what it answers: test it.

ghost use Rattle.std.specs.Prelude.{◌≤◌, IfOk};

use lid_base::Items;
use lid_cert::Part;
use lid_graph::{Edge, Graph};
use lid_rate_guess::{edge_at, get, propose_labels, put, put_each};
use lid_rate_ratio::Ratio;
use std::alloc::{AllocError, Global};

/// Whether each transition stands in a part.
fn members(alloc: Global, part: &Part, count: u32) -> Result<Vec<bool>, AllocError> {
    let mut inside = Vec::from_elem(alloc, false, count as usize)?;
    for v in part.nodes.as_slice() {
        put(&mut inside, *v, true);
    }
    Ok(inside)
}

/// The lag of each transition of a part, and 0 for others.
fn lags_of(alloc: Global, part: &Part, count: u32) -> Result<Vec<u64>, AllocError> {
    let mut lags = Vec::from_elem(alloc, 0, count as usize)?;
    put_each(&mut lags, part.nodes.as_slice(), part.lag.as_slice(), 0);
    Ok(lags)
}

/// An edge of the part, or one that asks for nothing.
fn kept_edge(edge: Edge, keep: bool) -> Edge {
    if keep {
        edge
    } else {
        Edge {
            from: edge.from,
            to: edge.from,
            tokens: 1,
        }
    }
}

/// The edges of a part but for those of one station.
fn without_station(
    alloc: Global,
    graph: &Graph,
    part: &Part,
    station: u32,
) -> Result<Graph, AllocError> {
    let inside = members(alloc, part, graph.nodes)?;
    let mut edges = Vec::with_capacity(alloc, graph.edges.len())?;
    let mut number: u32 = 0;
    for edge in graph.edges.as_slice() {
        let keep = number / 2 != station && get(&inside, edge.from, false);
        edges.push(kept_edge(*edge, keep))?;
        number = number.wrapping_add(1);
    }
    Ok(Graph {
        nodes: graph.nodes,
        edges: Items::from_vec(edges),
    })
}

/// The edge along the last station, and the ratio of its component.
#[derive(Clone, Copy)]
struct Chain {
    edge: Edge,
    ratio: Ratio,
}

/// How much the label where the station is drained is raised, so that labels tell walks back that are as long as
/// `most` further relay stations ask.
fn rise_of(lags: &[u64], chain: Chain, most: u32) -> u64 {
    let asked = chain.ratio.p.wrapping_mul(u64::from(most).wrapping_add(1));
    let tokens = chain.ratio.q.wrapping_mul(u64::from(chain.edge.tokens));
    asked
        .wrapping_add(get(lags, chain.edge.from, 0))
        .saturating_sub(tokens.wrapping_add(get(lags, chain.edge.to, 0)))
}

/// How many further relay stations the labels leave room for.
fn count_of(lags: &[u64], labels: &[u64], chain: Chain, rise: u64, most: u32) -> u32
    ensures { result ≤ most }
{
    let label = get(labels, chain.edge.from, 0);
    if rise == 0 || label <= get(lags, chain.edge.from, 0) || chain.ratio.p == 0 {
        return most;
    }
    let tokens = chain.ratio.q.wrapping_mul(u64::from(chain.edge.tokens));
    let left = tokens
        .wrapping_add(get(lags, chain.edge.to, 0))
        .wrapping_add(rise)
        .saturating_sub(label);
    let count = (left / chain.ratio.p).saturating_sub(1);
    if count < u64::from(most) {
        count as u32
    } else {
        most
    }
}

/// The guess, by lags and the graph without the station.
fn guess_by(
    alloc: Global,
    graph: &Graph,
    lags: &[u64],
    chain: Chain,
    most: u32,
) -> Result<u32, AllocError>
    ensures { IfOk result (λ guess. guess ≤ most) }
{
    let rise = rise_of(lags, chain, most);
    let mut hint = Vec::from_slice(alloc, lags)?;
    put(
        &mut hint,
        chain.edge.to,
        get(lags, chain.edge.to, 0).wrapping_add(rise),
    );
    let found = propose_labels(alloc, graph, chain.ratio.p, chain.ratio.q, &hint)?;
    Ok(count_of(lags, found.labels.as_slice(), chain, rise, most))
}

/// A guess of the slack, of `most` at most, from the present graph, the part of the channel's component and its
/// ratio, and the number of the channel's last station.
///
/// # Errors
/// Where there is no memory.
pub fn propose_slack(
    alloc: Global,
    graph: &Graph,
    part: &Part,
    station: u32,
    ratio: Ratio,
    most: u32,
) -> Result<u32, AllocError>
    ensures { IfOk result (λ guess. guess ≤ most) }
{
    let chain = Chain {
        edge: edge_at(graph.edges.as_slice(), station.wrapping_mul(2)),
        ratio,
    };
    let rest = without_station(alloc, graph, part, station)?;
    let lags = lags_of(alloc, part, graph.nodes)?;
    guess_by(alloc, &rest, &lags, chain, most)
}

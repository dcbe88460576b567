//! The forward ratio of each component of a marking: that of its edges forth and its self edges alone.

ghost use Rattle.std.specs.Prelude.{◌≡◌, ℕ, ◌*◌, ◌<◌, ◌≤◌, ◌^◌, ◌++◌, length, map, slice_index, IfOk, OnOk};
ghost use Rattle.lid_graph.specs.Walks.{edge_at};
ghost use Rattle.lid_rate.specs.Rates.{AreLabels, numbers_where, is_labelled};
ghost use Rattle.lid_size_laws.specs.Capacities.{IsForwardRatio};
ghost use Rattle.lid_size_forward.specs.ForwardParts.{HasStations, selves_of, forths_of, forward_part, AreForwardRatios};

use crate::ratios::shown_ratios;
use lid_base::Items;
use lid_graph::{Edge, Graph, components};
use lid_rate_ratio::{Ratio, edge, rate_of};
use lid_size_guess::propose_forwards;
use std::alloc::{AllocError, Global};

/// The self edges of the transitions with a label.
fn selves(alloc: Global, least: &[u32], label: u32) -> Result<Vec<Edge>, AllocError>
    requires { length least.now < 2 ^ 32 }
    ensures { IfOk result (λ edges. edges.items ≡ selves_of least.now label) }
{
    let mut edges = Vec::new(alloc);
    for v in 0..least.len() {
        if least[v] == label {
            edges.push(Edge {
                from: v as u32,
                to: v as u32,
                tokens: 1,
            })?;
        }
    }
    Ok(edges)
}

/// Appends the edges forth that begin at a transition with a label.
fn push_forths(
    graph: &Graph,
    stations: u32,
    least: &[u32],
    label: u32,
    edges: &mut Vec<Edge>,
) -> Result<(), AllocError>
    requires graph { HasStations graph.now stations }
    requires least { length least.now ≡ graph.now.nodes }
    ensures { OnOk result (edges.new.items ≡ edges.old.items ++ forths_of graph.now stations least.now label) }
{
    for station in 0..stations {
        let forth = edge(graph, 2 * station);
        if least[forth.from as usize] == label {
            edges.push(forth)?;
        }
    }
    Ok(())
}

/// The graph of the edges forth and the self edges of the transitions with a label.
fn forward_part(
    alloc: Global,
    graph: &Graph,
    stations: u32,
    least: &[u32],
    label: u32,
) -> Result<Graph, AllocError>
    requires graph { HasStations graph.now stations }
    requires least { length least.now ≡ graph.now.nodes }
    ensures { IfOk result (λ part. part ≡ forward_part graph.now stations least.now label) }
{
    let mut edges = selves(alloc, least, label)?;
    push_forths(graph, stations, least, label, &mut edges)?;
    Ok(Graph {
        nodes: graph.nodes,
        edges: Items::from_vec(edges),
    })
}

/// The forward ratio of the component whose least transition is `label`.
fn forward_ratio(
    alloc: Global,
    graph: &Graph,
    stations: u32,
    least: &[u32],
    label: u32,
) -> Result<Ratio, AllocError>
    requires graph { HasStations graph.now stations }
    requires labels { AreLabels graph.now least.now }
    requires within { label < graph.now.nodes }
    requires own { slice_index least.now label ≡ label }
    ensures is { IfOk result (λ ratio. IsForwardRatio graph.now stations label ratio.p ratio.q) }
    ensures small_p { IfOk result (λ ratio. ratio.p ≤ 2 ^ 22) }
    ensures small_q { IfOk result (λ ratio. ratio.q ≤ 2 ^ 18) }
{
    let part = forward_part(alloc, graph, stations, least, label)?;
    let rate = rate_of(alloc, &part, 0)?;
    Ok(rate.ratio)
}

/// The forward ratio of the component of each transition, by the least transition of each.
fn each_ratio(
    alloc: Global,
    graph: &Graph,
    stations: u32,
    least: &[u32],
) -> Result<Vec<Ratio>, AllocError>
    requires graph { HasStations graph.now stations }
    requires labels { AreLabels graph.now least.now }
    ensures { IfOk result (λ wants. AreForwardRatios graph.now stations wants.items) }
{
    let mut wants = Vec::new(alloc);
    for v in 0..graph.nodes {
        let label = least[v as usize];
        let want = if label == v {
            forward_ratio(alloc, graph, stations, least, v)?
        } else {
            wants[label as usize]
        };
        wants.push(want)?;
    }
    Ok(wants)
}

/// The forward ratio of the component of each transition: by a guess for all components, or, where its test
/// fails, one component after the other.
fn ratios_by(
    alloc: Global,
    graph: &Graph,
    stations: u32,
    least: &[u32],
) -> Result<Vec<Ratio>, AllocError>
    requires graph { HasStations graph.now stations }
    requires labels { AreLabels graph.now least.now }
    ensures { IfOk result (λ wants. AreForwardRatios graph.now stations wants.items) }
{
    let forwards = propose_forwards(alloc, graph, stations, least)?;
    match shown_ratios(alloc, graph, stations, least, &forwards)? {
        Some(wants) => Ok(wants),
        None => each_ratio(alloc, graph, stations, least),
    }
}

/// The forward ratio of the component of each transition of a marking with so many stations.
///
/// # Errors
/// Where there is no memory.
pub fn forward_ratios(alloc: Global, graph: &Graph, stations: u32) -> Result<Vec<Ratio>, AllocError>
    requires { HasStations graph.now stations }
    ensures { IfOk result (λ wants. AreForwardRatios graph.now stations wants.items) }
{
    let least = components(alloc, graph)?;
    ratios_by(alloc, graph, stations, least.as_slice())
}

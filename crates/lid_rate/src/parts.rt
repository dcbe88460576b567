//! The part of one component: what is found of its piece, said of the graph.

ghost use Rattle.std.specs.Prelude.{◌≡◌, ℕ, ◌+◌, ◌-◌, ◌*◌, ◌<◌, ◌≤◌, ◌^◌, List, length, map, slice_index, option_map, IfOk};
ghost use Rattle.lid_graph.specs.Walks.{walk_start, IsClosedWalk};
ghost use Rattle.lid_rate_ratio.specs.Components.{IsSmallGraph, IsLoop, AreAllJoined};
ghost use Rattle.lid_graph.specs.Rateable.{IsRateable};
ghost use Rattle.lid_rate.specs.Rates.{IsPartOf};
ghost use Rattle.lid_rate.specs.Grouping.{IsOwnComponent};
ghost use Rattle.lid_rate.specs.Pieces.{IsFoundOfPiece, IsLifted};

use crate::pieces::{piece_of, place};
use lid_base::Items;
use lid_cert::Part;
use lid_graph::Graph;
use lid_rate_guess::Branches;
use lid_rate_ratio::{Rate, Ratio, Root, edge, rate_of, tree_of};
use std::alloc::{AllocError, Global};

/// What is found of a piece.
#[derive(Drop)]
struct Findings {
    rate: Rate,
    tree: Branches,
}

/// The lists of a part that number the graph's transitions and edges.
#[derive(Drop)]
struct Numbering {
    nodes: Items<u32>,
    cycle: Items<u32>,
    via: Items<Option<u32>>,
}

/// The number at a place, or 0 past the end.
fn at(numbers: &[u32], place: u32) -> u32
    ensures { result ≡ slice_index numbers.now place }
{
    numbers.get(place as usize).copied().unwrap_or(0)
}

/// The numbers at these places.
fn all_at(alloc: Global, numbers: &[u32], places: &[u32]) -> Result<Items<u32>, AllocError>
    ensures { IfOk result (λ all. all ≡ map (λ k. slice_index numbers.now k) places.now) }
{
    let mut all = Vec::with_capacity(alloc, places.len())?;
    for place in places {
        all.push(at(numbers, *place))?;
    }
    Ok(Items::from_vec(all))
}

/// The number at a place, if there is one.
fn maybe_at(numbers: &[u32], place: Option<u32>) -> Option<u32>
    ensures { result ≡ option_map (λ k. slice_index numbers.now k) place }
{
    match place {
        Some(place) => Some(at(numbers, place)),
        None => None,
    }
}

/// The numbers at those places that there are.
fn each_at(
    alloc: Global,
    numbers: &[u32],
    places: &[Option<u32>],
) -> Result<Items<Option<u32>>, AllocError>
    ensures { IfOk result (λ all. all ≡ map (λ o. option_map (λ k. slice_index numbers.now k) o) places.now) }
{
    let mut all = Vec::with_capacity(alloc, places.len())?;
    for place in places {
        all.push(maybe_at(numbers, *place))?;
    }
    Ok(Items::from_vec(all))
}

/// The numbers of a list.
fn copy(alloc: Global, numbers: &[u32]) -> Result<Items<u32>, AllocError>
    ensures { IfOk result (λ all. all ≡ numbers.now) }
{
    Ok(Items::from_vec(Vec::from_slice(alloc, numbers)?))
}

/// The lead where a closed walk of so many edges starts.
fn first_lead(ratio: Ratio, count: usize) -> u64
    requires q { ratio.q ≤ 2 ^ 18 }
    requires count { count ≤ 2 ^ 18 }
    requires some { 0 < count }
    ensures enough { ratio.q * (count - 1) ≤ result + ratio.p * (count - 1) }
    ensures low { result ≤ 2 ^ 40 }
{
    ratio.q.saturating_sub(ratio.p) * (count as u64 - 1)
}

/// Where the first edge of a closed walk begins.
fn start_of(piece: &Graph, walk: &[u32]) -> u32
    requires { IsClosedWalk piece.now walk.now }
    ensures { result ≡ walk_start piece.now walk.now }
{
    edge(piece, walk[0]).from
}

/// The rate of a piece, and a tree from where its closed walk starts.
fn search_piece(alloc: Global, piece: &Graph, first: u32) -> Result<Findings, AllocError>
    requires piece { IsSmallGraph piece.now }
    requires first { IsLoop piece.now first }
    requires joined { (u : ℕ) → u < piece.now.nodes → AreAllJoined piece.now u }
    ensures { IfOk result (λ all. IsFoundOfPiece piece.now all.rate.ratio.p all.rate.ratio.q all.rate.walk all.rate.lags all.tree.via all.tree.lead
        all.tree.depth) }
{
    let rate = rate_of(alloc, piece, first)?;
    let start = start_of(piece, rate.walk.as_slice());
    let root = Root {
        start,
        q: rate.ratio.q,
        first: first_lead(rate.ratio, rate.walk.len()),
    };
    let tree = tree_of(alloc, piece, root)?;
    Ok(Findings { rate, tree })
}

/// The transitions and edges by the graph's numbers.
fn numbering_of(
    alloc: Global,
    nodes: &[u32],
    edges: &[u32],
    found: &Findings,
) -> Result<Numbering, AllocError>
    ensures nodes { IfOk result (λ all. all.nodes ≡ nodes.now) }
    ensures cycle { IfOk result (λ all. all.cycle ≡ map (λ k. slice_index edges.now k) found.now.rate.walk) }
    ensures via { IfOk result (λ all. all.via ≡ map (λ o. option_map (λ k. slice_index edges.now k) o) found.now.tree.via) }
{
    let cycle = all_at(alloc, edges, found.rate.walk.as_slice())?;
    let via = each_at(alloc, edges, found.tree.via.as_slice())?;
    let nodes = copy(alloc, nodes)?;
    Ok(Numbering { nodes, cycle, via })
}

/// The part with these lists.
fn assemble(named: Numbering, found: Findings) -> Part
    ensures nodes { result.nodes ≡ named.nodes }
    ensures p { result.p ≡ found.rate.ratio.p }
    ensures q { result.q ≡ found.rate.ratio.q }
    ensures cycle { result.cycle ≡ named.cycle }
    ensures lag { result.lag ≡ found.rate.lags }
    ensures lead { result.lead ≡ found.tree.lead }
    ensures via { result.via ≡ named.via }
    ensures depth { result.depth ≡ found.tree.depth }
{
    let Numbering { nodes, cycle, via } = named;
    let Findings { rate, tree } = found;
    Part {
        nodes,
        p: rate.ratio.p,
        q: rate.ratio.q,
        cycle,
        lag: rate.lags,
        lead: tree.lead,
        via,
        depth: tree.depth,
    }
}

/// The part that says of the graph what was found of its piece.
fn lifted(alloc: Global, nodes: &[u32], edges: &[u32], found: Findings) -> Result<Part, AllocError>
    ensures { IfOk result (IsLifted nodes.now edges.now found.rate.ratio.p found.rate.ratio.q found.rate.walk found.rate.lags found.tree.via
        found.tree.lead found.tree.depth) }
{
    let named = numbering_of(alloc, nodes, edges, &found)?;
    Ok(assemble(named, found))
}

/// The part of a component, of its transitions and edges. `first` is an edge from its least transition to
/// itself.
///
/// # Errors
/// Where there is no memory.
pub(crate) fn part_of(
    alloc: Global,
    graph: &Graph,
    inside: &[u32],
    edges: &[u32],
    first: u32,
) -> Result<Part, AllocError>
    requires graph { IsRateable graph.now }
    requires own { (least : List ℕ) × (label : ℕ) × IsOwnComponent graph.now least label inside.now edges.now first }
    ensures { (least : List ℕ) (label : ℕ) → IsOwnComponent graph.now least label inside.now edges.now first
        → IfOk result (IsPartOf graph.now least label) }
{
    let piece = piece_of(alloc, graph, inside, edges)?;
    let all = search_piece(alloc, &piece, place(edges, first))?;
    lifted(alloc, inside, edges, all)
}

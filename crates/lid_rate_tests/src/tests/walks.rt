//! The fewest tokens on walks in graphs of at most eight transitions, worked out slowly.

use lid_graph::Graph;

/// The fewest tokens on a walk, for each transition where it may end.
pub(crate) type Fewest = [Option<u64>; 8];

/// So many tokens more, where there is a walk.
fn more(fewest: Option<u64>, tokens: u32) -> Option<u64> {
    match fewest {
        Some(found) => Some(found.saturating_add(u64::from(tokens))),
        None => None,
    }
}

/// The lesser of the tokens on two walks, where there are such.
fn lesser(a: Option<u64>, b: Option<u64>) -> Option<u64> {
    match (a, b) {
        (Some(x), Some(y)) if y < x => b,
        (None, _) => b,
        _ => a,
    }
}

/// The fewest tokens on a walk that is one edge longer.
fn lengthen(graph: &Graph, fewest: &Fewest) -> Fewest {
    let mut longer = [None; 8];
    for edge in graph.edges.as_slice() {
        let (from, to) = (edge.from as usize, edge.to as usize);
        if from < 8 && to < 8 {
            longer[to] = lesser(longer[to], more(fewest[from], edge.tokens));
        }
    }
    longer
}

/// Whether the tokens on a walk of so many edges, where there is one, are fewer than p/q of the edges;
/// and whether they are as many.
fn compare(tokens: Option<u64>, edges: u64, p: u64, q: u64) -> (bool, bool) {
    match tokens {
        Some(tokens) => {
            let there = u128::from(tokens) * u128::from(q);
            let here = u128::from(p) * u128::from(edges);
            (there < here, there == here)
        }
        None => (false, false),
    }
}

/// Whether p/q is the least ratio of tokens to edges over the closed walks through a transition that
/// have at most eight edges, the simple ones among them: whether none has a lesser one; and whether one
/// has it.
pub(crate) fn rate_at(graph: &Graph, start: u32, p: u64, q: u64) -> (bool, bool) {
    let (mut least, mut attained) = (true, false);
    if start < 8 {
        let mut fewest = [None; 8];
        fewest[start as usize] = Some(0);
        for edges in 1..9 {
            fewest = lengthen(graph, &fewest);
            let (fewer, same) = compare(fewest[start as usize], edges, p, q);
            least = least && !fewer;
            attained = attained || same;
        }
    }
    (least, attained)
}

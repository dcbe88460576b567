//! Small graphs, with answers worked out by hand, and a slow search beside the fast one.

ghost use Rattle.std.specs.Prelude.{IfOk, IfSome, IsTrue};
ghost use Rattle.std.specs.List.{All};
ghost use Rattle.lid_cert.specs.Certificates.{AreLists};
ghost use Rattle.lid_graph.specs.Rateable.{IsRateable};

use crate::tests::designs::{DIAMOND, RING, Station, are, are_large, graph_of};
use crate::tests::walks::rate_at;
use lid_cert::{Cert, Part, check_by_owners};
use lid_graph::Graph;
use lid_rate::{find, is_rateable};
use std::alloc::{AllocError, Global};

/// Numbers from one on, less than another.
fn range(alloc: Global, from: u32, to: u32) -> Result<Vec<u32>, AllocError> {
    let mut numbers = Vec::new(alloc);
    for k in from..to {
        numbers.push(k)?;
    }
    Ok(numbers)
}

/// The edges back in a graph with so many edges for stations, of so many edges: the edges for a station
/// are a pair, and self edges lead back themselves.
fn backs_of(alloc: Global, pairs: u32, edges: u32) -> Result<Vec<u32>, AllocError> {
    let mut backs = Vec::new(alloc);
    for k in 0..edges {
        backs.push(if k < pairs { k ^ 1 } else { k })?;
    }
    Ok(backs)
}

/// Raises the number of the end of each edge without tokens. Answers whether one rose.
fn raise(graph: &Graph, numbers: &mut [u32]) -> bool {
    let mut rose = false;
    for edge in graph.edges.as_slice() {
        let (from, to) = (edge.from as usize, edge.to as usize);
        if edge.tokens == 0 && from < numbers.len() && to < numbers.len() {
            let least = numbers[from].saturating_add(1);
            rose = rose || numbers[to] < least;
            numbers[to] = numbers[to].max(least);
        }
    }
    rose
}

/// Numbers that rise along each edge without tokens, where there are such: each edge raises the number
/// of its end, until none rises, or as often as there are transitions.
fn numbers_of(alloc: Global, graph: &Graph) -> Result<Vec<u32>, AllocError> {
    let mut numbers = Vec::from_elem(alloc, 0, graph.nodes as usize)?;
    for _ in 0..graph.nodes {
        if !raise(graph, numbers.as_mut_slice()) {
            break;
        }
    }
    Ok(numbers)
}

/// Whether a graph of so many edges for stations is one that the search takes.
pub(crate) fn is_taken(alloc: Global, graph: &Graph, pairs: u32) -> Result<bool, AllocError>
    ensures { IfOk result (λ taken. IsTrue taken → IsRateable graph.now) }
{
    let edges = pairs.saturating_add(graph.nodes);
    let backs = backs_of(alloc, pairs, edges)?;
    let loops = range(alloc, pairs, edges)?;
    let numbers = numbers_of(alloc, graph)?;
    Ok(is_rateable(graph, &backs, &loops, &numbers))
}

/// The certificate that is found of a graph of so many stations, where the graph is one that the
/// search takes, and the certificate is accepted.
pub(crate) fn certified(alloc: Global, graph: &Graph, stations: usize) -> Option<Cert>
    ensures { IfSome result (λ cert. All AreLists cert.parts) }
{
    let pairs = u32::try_from(stations)
        .unwrap_or(u32::MAX)
        .saturating_mul(2);
    if is_taken(alloc, graph, pairs) != Ok(true) {
        return None;
    }
    match find(alloc, graph) {
        Ok(cert) if check_by_owners(alloc, graph, &cert) => Some(cert),
        _ => None,
    }
}

/// A graph, and the certificate that is found of it.
#[derive(Drop)]
struct Rated {
    graph: Graph,
    cert: Cert,
}

/// The graph of these stations with its certificate.
fn rate_graph(alloc: Global, nodes: u32, stations: &[Station]) -> Option<Rated> {
    let Ok(graph) = graph_of(alloc, nodes, stations) else {
        return None;
    };
    match certified(alloc, &graph, stations.len()) {
        Some(cert) => Some(Rated { graph, cert }),
        None => None,
    }
}

/// Whether a walk goes along these edges, beginning at any of them.
fn goes_round(walk: &[u32], edges: &[u32]) -> bool {
    if walk.len() != edges.len() {
        return false;
    }
    for shift in 0..edges.len() {
        let rest = edges.len() - shift;
        if are(&walk[..rest], &edges[shift..]) && are(&walk[rest..], &edges[..shift]) {
            return true;
        }
    }
    false
}

/// What a part has: transitions, p, q, lags, and a walk that may begin at any of its edges.
type Shown<'a> = (&'a [u32], u64, u64, &'a [u64], &'a [u32]);

/// Whether a part is as it is shown.
fn is_part(part: &Part, shown: &Shown) -> bool {
    let (nodes, p, q, lags, walk) = shown;
    are(part.nodes.as_slice(), nodes)
        && part.p == *p
        && part.q == *q
        && are_large(part.lag.as_slice(), lags)
        && goes_round(part.cycle.as_slice(), walk)
}

/// Whether parts are as they are shown.
fn are_parts(parts: &[Part], shown: &[Shown]) -> bool {
    if parts.len() != shown.len() {
        return false;
    }
    for (at, part) in parts.iter().enumerate() {
        if !is_part(part, &shown[at]) {
            return false;
        }
    }
    true
}

/// Whether the certificate that is found of these stations has these parts.
fn rates(alloc: Global, nodes: u32, stations: &[Station], shown: &[Shown]) -> bool {
    match rate_graph(alloc, nodes, stations) {
        Some(rated) => are_parts(rated.cert.parts.as_slice(), shown),
        None => false,
    }
}

/// A ring of three and one of four transitions, and one alone.
const RINGS: [Station; 7] = [
    (0, 2, 1, 2),
    (1, 3, 1, 2),
    (2, 4, 1, 2),
    (3, 5, 0, 2),
    (4, 0, 0, 2),
    (5, 7, 0, 2),
    (7, 1, 0, 2),
];

/// Graphs, and the parts of their certificates.
static RATED: [(u32, &[Station], &[Shown<'static>]); 4] = [
    (1, &[], &[(&[0], 1, 1, &[0], &[0])]),
    (
        5,
        &RING,
        &[
            (&[0], 1, 1, &[0], &[8]),
            (&[1, 2, 3, 4], 2, 3, &[1, 2, 1, 0], &[0, 2, 4]),
        ],
    ),
    (
        8,
        &DIAMOND,
        &[(
            &[0, 1, 2, 3, 4, 5, 6, 7],
            1,
            2,
            &[0, 1, 3, 2, 2, 0, 1, 2],
            &[2, 4, 6, 8, 15, 11],
        )],
    ),
    (
        8,
        &RINGS,
        &[
            (&[0, 2, 4], 2, 3, &[2, 1, 0], &[0, 4, 8]),
            (&[1, 3, 5, 7], 1, 4, &[3, 0, 1, 2], &[2, 6, 10, 12]),
            (&[6], 1, 1, &[0], &[20]),
        ],
    ),
];

#[test]
fn rates_small_graphs(rt: HostRuntime) {
    for case in &RATED {
        assert!(rt; rates(rt.alloc(), case.0, case.1, case.2));
    }
}

/// Whether there is one part, with this ratio.
fn is_ratio(parts: &[Part], p: u64, q: u64) -> bool {
    match parts {
        [part] => part.p == p && part.q == q,
        _ => false,
    }
}

/// Whether the graph of these stations has one component, with this ratio.
fn has_ratio(alloc: Global, nodes: u32, stations: &[Station], p: u64, q: u64) -> bool {
    match rate_graph(alloc, nodes, stations) {
        Some(rated) => is_ratio(rated.cert.parts.as_slice(), p, q),
        None => false,
    }
}

/// Whether this is the ratio of two ways from a source to a sink, one with a shell and four movers, the
/// other one station of this capacity.
fn rates_two_ways(alloc: Global, capacity: u32, p: u64, q: u64) -> bool {
    let stations = [
        (0, 3, 1, 2),
        (3, 4, 0, 2),
        (4, 5, 0, 2),
        (5, 1, 0, 2),
        (0, 2, 1, capacity),
        (1, 6, 1, 2),
        (6, 2, 0, 2),
    ];
    has_ratio(alloc, 7, &stations, p, q)
}

/// Capacities, and the ratios at them.
static WAYS: [(u32, u64, u64); 5] = [(2, 3, 7), (3, 4, 7), (5, 6, 7), (6, 1, 1), (16, 1, 1)];

#[test]
fn rates_by_the_room_of_a_station(rt: HostRuntime) {
    for case in &WAYS {
        assert!(rt; rates_two_ways(rt.alloc(), case.0, case.1, case.2));
    }
}

/// A ring of so many stations with so many tokens, one each on the first edges.
fn ring_of(alloc: Global, count: u32, tokens: u32) -> Result<Vec<Station>, AllocError> {
    let mut stations = Vec::new(alloc);
    for v in 0..count {
        let next = if v + 1 < count { v + 1 } else { 0 };
        stations.push((v, next, if v < tokens { 1 } else { 0 }, 2))?;
    }
    Ok(stations)
}

/// Whether this is the ratio of a ring.
fn rates_ring(alloc: Global, count: u32, tokens: u32, p: u64, q: u64) -> bool {
    match ring_of(alloc, count, tokens) {
        Ok(stations) => has_ratio(alloc, count, stations.as_slice(), p, q),
        Err(_) => false,
    }
}

/// How many stations and tokens a ring has, and its ratio.
static RATIOS: [(u32, u32, u64, u64); 9] = [
    (2, 1, 1, 2),
    (3, 1, 1, 3),
    (3, 2, 2, 3),
    (4, 2, 1, 2),
    (5, 5, 1, 1),
    (6, 4, 2, 3),
    (10, 3, 3, 10),
    (24, 18, 3, 4),
    (3_000, 1_500, 1, 2),
];

#[test]
fn rates_rings_by_their_tokens(rt: HostRuntime) {
    for case in &RATIOS {
        assert!(rt; rates_ring(rt.alloc(), case.0, case.1, case.2, case.3));
    }
}

/// Whether the lags are those of a ring of 300 with 7 tokens.
fn are_long_lags(lags: &[u64]) -> bool {
    for (v, lag) in lags.iter().enumerate() {
        let v = v as u64;
        let want = if v < 7 {
            2051 - 293 * v
        } else {
            (v - 7).saturating_mul(7)
        };
        if *lag != want {
            return false;
        }
    }
    lags.len() == 300
}

/// Whether the one part is that of a ring of 300 with 7 tokens.
fn is_long_ring(parts: &[Part]) -> bool {
    match parts {
        [part] => {
            part.p == 7
                && part.q == 300
                && part.cycle.len() == 300
                && are_long_lags(part.lag.as_slice())
        }
        _ => false,
    }
}

/// The same of the certificate of that ring.
fn rates_long_ring(alloc: Global) -> bool {
    let Ok(stations) = ring_of(alloc, 300, 7) else {
        return false;
    };
    match rate_graph(alloc, 300, stations.as_slice()) {
        Some(rated) => is_long_ring(rated.cert.parts.as_slice()),
        None => false,
    }
}

#[test]
fn rates_a_long_ring(rt: HostRuntime) {
    assert!(rt; rates_long_ring(rt.alloc()));
}

/// Whether the ratio of a part is the least over the closed walks through its transitions.
fn is_least(graph: &Graph, part: &Part) -> bool {
    let mut attained = false;
    for start in part.nodes.as_slice() {
        let (least, here) = rate_at(graph, *start, part.p, part.q);
        if !least {
            return false;
        }
        attained = attained || here;
    }
    attained
}

/// The same of each part.
fn are_least(graph: &Graph, parts: &[Part]) -> bool {
    for part in parts {
        if !is_least(graph, part) {
            return false;
        }
    }
    true
}

/// The next of a row of numbers that look like chance.
pub(crate) fn draw(state: &mut u32, below: u32) -> u32 {
    *state = (state.wrapping_mul(75).wrapping_add(74)) % 65_537;
    if below == 0 { 0 } else { *state % below }
}

/// A station between transitions below `nodes`, without tokens only from a lesser to a greater.
fn some_station(state: &mut u32, nodes: u32) -> Station {
    let filler = draw(state, nodes);
    let drainer = draw(state, nodes);
    let empty = filler < drainer && draw(state, 2) == 0;
    let capacity = draw(state, 3).saturating_add(2);
    (filler, drainer, if empty { 0 } else { 1 }, capacity)
}

/// As many stations as there are transitions, and one more.
fn some_stations(alloc: Global, seed: u32, nodes: u32) -> Result<Vec<Station>, AllocError> {
    let mut state = seed;
    let mut stations = Vec::new(alloc);
    for _ in 0..nodes.saturating_add(1) {
        stations.push(some_station(&mut state, nodes))?;
    }
    Ok(stations)
}

/// Whether the certificate that is found of some stations has the least ratios.
fn rates_by_chance(alloc: Global, seed: u32) -> bool {
    let nodes = 3 + seed % 6;
    let Ok(stations) = some_stations(alloc, seed, nodes) else {
        return false;
    };
    match rate_graph(alloc, nodes, stations.as_slice()) {
        Some(rated) => are_least(&rated.graph, rated.cert.parts.as_slice()),
        None => false,
    }
}

#[test]
fn finds_the_least_of_all_ratios(rt: HostRuntime) {
    for seed in 1..40 {
        assert!(rt; rates_by_chance(rt.alloc(), seed));
    }
}

/// Transitions and stations; lists of edges back, of self edges and of numbers; and whether they show
/// that the search takes the graph.
static SHOWN: [(u32, &[Station], &[u32], &[u32], &[u32], bool); 10] = [
    (2, &[(0, 1, 0, 2)], &[1, 0, 2, 3], &[2, 3], &[4, 5], true),
    (2, &[(0, 1, 0, 2)], &[1, 1, 2, 3], &[2, 3], &[4, 5], false),
    (2, &[(0, 1, 0, 2)], &[1, 0, 2, 3], &[2, 2], &[4, 5], false),
    (2, &[(0, 1, 0, 2)], &[1, 0, 2, 3], &[2, 3], &[4, 4], false),
    (2, &[(0, 1, 0, 2)], &[1, 0, 2], &[2, 3], &[4, 5], false),
    (2, &[(0, 1, 0, 2)], &[1, 0, 2, 9], &[2, 3], &[4, 5], false),
    (
        2,
        &[(0, 1, 0, 2)],
        &[1, 0, 2, 3],
        &[2, 3, 0],
        &[4, 5],
        false,
    ),
    (
        2,
        &[(0, 1, 0, 2)],
        &[1, 0, 2, 3],
        &[2, 3],
        &[4, 5, 6],
        false,
    ),
    (2, &[(0, 1, 0, 17)], &[1, 0, 2, 3], &[2, 3], &[4, 5], false),
    (0, &[], &[], &[], &[], false),
];

/// Whether it is this that the lists show.
fn shows(
    alloc: Global,
    nodes: u32,
    stations: &[Station],
    backs: &[u32],
    loops: &[u32],
    numbers: &[u32],
    want: bool,
) -> bool {
    match graph_of(alloc, nodes, stations) {
        Ok(graph) => is_rateable(&graph, backs, loops, numbers) == want,
        Err(_) => false,
    }
}

#[test]
fn tells_graphs_that_are_not_shown(rt: HostRuntime) {
    for case in &SHOWN {
        assert!(rt; shows(rt.alloc(), case.0, case.1, case.2, case.3, case.4, case.5));
    }
}

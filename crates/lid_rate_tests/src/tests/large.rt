//! Large graphs, from the search to the printed text and back, and guesses that are wrong.

ghost use Rattle.std.specs.List.{All};
ghost use Rattle.lid_cert.specs.Certificates.{AreLists};
ghost use Rattle.lid_graph.specs.Rateable.{IsRateable};

use crate::tests::designs::{DIAMOND, Station, are_large, graph_of};
use crate::tests::rate::{certified, is_taken};
use lid_base::Items;
use lid_cert::{Cert, Part, check_by_owners};
use lid_cert_text::{print_cert, read_cert};
use lid_graph::Graph;
use lid_rate_guess::{Guess, Labels};
use lid_rate_ratio::{Bound, Rate, Ratio, edge, holds, holds_by, rate_by};
use std::alloc::{AllocError, Global};

/// Stages of three transitions each in a row, every one of which leads back to a hub.
fn hub_of(alloc: Global, stages: u32) -> Result<Vec<Station>, AllocError> {
    let mut stations = Vec::new(alloc);
    for stage in 0..stages {
        let before = stage.saturating_mul(3);
        let first = before.saturating_add(1);
        let second = before.saturating_add(2);
        let third = before.saturating_add(3);
        stations.push((before, first, 1, 2))?;
        stations.push((first, second, 0, 2))?;
        stations.push((second, third, 0, 2))?;
        stations.push((third, 0, 1, 2))?;
    }
    Ok(stations)
}

/// So many rings of 15, with one token each.
fn rings_of(alloc: Global, count: u32) -> Result<Vec<Station>, AllocError> {
    let mut stations = Vec::new(alloc);
    for ring in 0..count {
        let base = ring.saturating_mul(15);
        for place in 0..15 {
            let (next, tokens) = if place < 14 { (place + 1, 0) } else { (0, 1) };
            let from = base.saturating_add(place);
            stations.push((from, base.saturating_add(next), tokens, 2))?;
        }
    }
    Ok(stations)
}

/// Whether the printed certificate is read and accepted.
fn is_carried(alloc: Global, graph: &Graph, cert: &Cert) -> bool
    requires { All AreLists cert.now.parts }
{
    let mut text = Vec::new(alloc);
    if print_cert(cert, &mut text).is_err() {
        return false;
    }
    match read_cert(alloc, text.as_slice()) {
        Ok(again) => check_by_owners(alloc, graph, &again),
        Err(_) => false,
    }
}

/// Whether each of so many parts has this ratio.
fn have_ratio(parts: &[Part], count: usize, p: u64, q: u64) -> bool {
    for part in parts {
        if part.p != p || part.q != q {
            return false;
        }
    }
    parts.len() == count
}

/// Whether the graph of these stations has so many components of this ratio, and its certificate is
/// accepted once it has been printed and read.
fn carries(alloc: Global, nodes: u32, stations: &[Station], shown: (usize, u64, u64)) -> bool {
    let Ok(graph) = graph_of(alloc, nodes, stations) else {
        return false;
    };
    match certified(alloc, &graph, stations.len()) {
        Some(cert) => {
            have_ratio(cert.parts.as_slice(), shown.0, shown.1, shown.2)
                && is_carried(alloc, &graph, &cert)
        }
        None => false,
    }
}

/// The same of a hub with so many stages.
fn carries_hub(alloc: Global, stages: u32, p: u64, q: u64) -> bool {
    match hub_of(alloc, stages) {
        Ok(stations) => carries(
            alloc,
            3 * (stages % 100_000) + 1,
            stations.as_slice(),
            (1, p, q),
        ),
        Err(_) => false,
    }
}

#[test]
fn rates_hubs(rt: HostRuntime) {
    assert!(rt; carries_hub(rt.alloc(), 1, 1, 2));
    assert!(rt; carries_hub(rt.alloc(), 400, 401, 1201));
    assert!(rt; carries_hub(rt.alloc(), 2_000, 2001, 6001));
}

/// The same of so many rings.
fn carries_rings(alloc: Global, count: u32) -> bool {
    match rings_of(alloc, count) {
        Ok(stations) => {
            let count = count % 100_000;
            carries(
                alloc,
                15 * count,
                stations.as_slice(),
                (count as usize, 1, 15),
            )
        }
        Err(_) => false,
    }
}

#[test]
fn rates_many_rings(rt: HostRuntime) {
    assert!(rt; carries_rings(rt.alloc(), 4_000));
}

/// A guess of the diamond's ratio: some numbers may be wrong.
type Guessed = (
    &'static [u32],
    &'static [u64],
    &'static [Option<u32>],
    &'static [u32],
);

/// The closed walk of the diamond.
const WALK: &[u32] = &[2, 4, 6, 8, 15, 11];

/// The lags of the diamond.
const LAGS: &[u64] = &[0, 1, 3, 2, 2, 0, 1, 2];

/// Guesses that the test refuses: no walk; a walk that is not closed; one of another ratio; lags that are
/// too large by one; no tight edges; lists that are too short.
static GUESSED: [Guessed; 6] = [
    (&[], LAGS, &[None; 8], &[0; 8]),
    (&[2, 4, 6], LAGS, &[None; 8], &[0; 8]),
    (&[16], &[0; 8], &[None; 8], &[0; 8]),
    (WALK, &[1, 2, 4, 3, 3, 1, 2, 3], &[None; 8], &[0; 8]),
    (WALK, LAGS, &[None; 8], &[0; 8]),
    (WALK, &[0, 1, 3], &[None; 3], &[0; 3]),
];

/// The guess with these numbers.
fn guess_of(alloc: Global, guessed: &Guessed) -> Result<Guess, AllocError> {
    let walk = Vec::from_slice(alloc, guessed.0)?;
    let lags = Vec::from_slice(alloc, guessed.1)?;
    let tight = Vec::from_slice(alloc, guessed.2)?;
    let ranks = Vec::from_slice(alloc, guessed.3)?;
    Ok(Guess {
        walk: Items::from_vec(walk),
        lags: Items::from_vec(lags),
        tight: Items::from_vec(tight),
        ranks: Items::from_vec(ranks),
        rounds: 0,
    })
}

/// Whether this is the rate of the diamond.
fn is_diamond(rate: &Rate) -> bool {
    rate.ratio.p == 1
        && rate.ratio.q == 2
        && rate.walk.len() == 6
        && are_large(rate.lags.as_slice(), LAGS)
}

/// Whether the rate of the diamond is found in spite of a guess. Edge 16 leads from transition 0 to
/// itself.
fn finds_diamond(alloc: Global, graph: &Graph, guess: Guess) -> bool
    requires { IsRateable graph.now }
{
    if graph.edges.len() <= 16 {
        return false;
    }
    let first = edge(graph, 16);
    if first.from != first.to || first.tokens != 1 {
        return false;
    }
    match rate_by(alloc, graph, 16, guess) {
        Ok(rate) => is_diamond(&rate),
        Err(_) => false,
    }
}

/// The same of the numbers of a guess.
fn finds_in_spite_of(alloc: Global, guessed: &Guessed) -> bool {
    let (Ok(graph), Ok(guess)) = (graph_of(alloc, 8, &DIAMOND), guess_of(alloc, guessed)) else {
        return false;
    };
    is_taken(alloc, &graph, 16) == Ok(true) && finds_diamond(alloc, &graph, guess)
}

#[test]
fn finds_the_rate_in_spite_of_wrong_guesses(rt: HostRuntime) {
    for case in &GUESSED {
        assert!(rt; finds_in_spite_of(rt.alloc(), case));
    }
}

/// Ratios, labels to begin with, and whether no closed walk of the diamond has a lower ratio: its ratio
/// is 1/2.
static HELD: [(u64, u64, &[u64], bool); 7] = [
    (1, 2, &[], true),
    (1, 2, LAGS, true),
    (1, 2, &[9, 0, 0, 0, 0, 0, 0, 0, 0, 0], true),
    (0, 1, &[], true),
    (3, 7, &[], true),
    (4, 7, LAGS, false),
    (1, 1, &[], false),
];

/// Whether labels for all transitions, or a closed walk of more than one edge, are the answer.
fn is_bound(answer: Bound, labels: bool) -> bool {
    match answer {
        Bound::At(found) => labels && found.len() == 8,
        Bound::Lower(walk) => !labels && walk.len() >= 2,
    }
}

/// Whether it is this that holds of a graph at a ratio, both with a hint and in spite of a wrong guess.
fn is_held(alloc: Global, graph: &Graph, aim: Ratio, hint: &[u64], labels: bool) -> bool
    requires { IsRateable graph.now }
{
    if aim.p > 1000 || aim.q > 1000 {
        return false;
    }
    let guess = Labels {
        labels: Items::from_vec(Vec::new(alloc)),
        walk: Items::from_vec(Vec::new(alloc)),
    };
    let (Ok(first), Ok(second)) = (
        holds(alloc, graph, aim, hint),
        holds_by(alloc, graph, aim, guess),
    ) else {
        return false;
    };
    is_bound(first, labels) && is_bound(second, labels)
}

/// The same of the diamond.
fn is_held_of_diamond(alloc: Global, case: &(u64, u64, &[u64], bool)) -> bool {
    let Ok(graph) = graph_of(alloc, 8, &DIAMOND) else {
        return false;
    };
    let aim = Ratio {
        p: case.0,
        q: case.1,
    };
    is_taken(alloc, &graph, 16) == Ok(true) && is_held(alloc, &graph, aim, case.2, case.3)
}

#[test]
fn tells_whether_a_ratio_is_kept(rt: HostRuntime) {
    for case in &HELD {
        assert!(rt; is_held_of_diamond(rt.alloc(), case));
    }
}

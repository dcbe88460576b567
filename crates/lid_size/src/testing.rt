//! The test of a guess of capacities: closed walks show that a station with one place less, and 16 for all
//! later ones, does not reach.

ghost use Rattle.std.specs.Prelude.{◌≡◌, ℕ, ◌*◌, ◌<◌, ◌↔◌, List, length, get_or, IsTrue, IfOk, IfSome};
ghost use Rattle.std.specs.List.{All};
ghost use Rattle.lid_base.specs.Each.{from_each};
ghost use Rattle.lid_graph.specs.declared.graph.Graph.{Graph};
ghost use Rattle.lid_graph.specs.Rateable.{IsRateable};
ghost use Rattle.lid_stations.specs.Placements.{IsCapacity};
ghost use Rattle.lid_size_forward.specs.ForwardParts.{no_ratio, AreForwardRatios};
ghost use Rattle.lid_size.specs.Choices.{followed};
ghost use Rattle.lid_size.specs.Testing.{IsRefuted, IsWayTo, AreWays, empty_way, IsTightNext, AreTight};

use crate::ways::{Way, closed, first_ways, lengthen};
use lid_cert::Cert;
use lid_graph::Graph;
use lid_rate_ratio::Ratio;
use lid_size_guess::{NextSize, SizeGuess, begin_sizes, propose_next};
use std::alloc::{AllocError, Global};

/// Whether a closed walk is below the ratio that is wanted.
fn is_below(wants: &[Ratio], way: Way) -> bool
    requires known { (g : Graph) × (n : ℕ) × (caps : List ℕ) × IsWayTo g n caps way.from way × AreForwardRatios g n wants.now }
    ensures exact { IsTrue result ↔ ((get_or wants.now way.from no_ratio).q * way.tokens < (get_or wants.now way.from no_ratio).p * way.edges) }
    ensures refuted { (g : Graph) (n : ℕ) (caps : List ℕ) → AreForwardRatios g n wants.now → IsWayTo g n caps way.from way → IsTrue result
        → IsRefuted g n wants.now caps }
{
    let want = wants[way.from as usize];
    want.q * u64::from(way.tokens) < want.p * u64::from(way.edges)
}

/// Whether the capacity that is proposed for the next station is in its range, and walks show that one less
/// does not reach.
fn is_next(
    graph: &Graph,
    wants: &[Ratio],
    count: u32,
    done: &[u32],
    ways: &mut [Way],
    next: &NextSize,
) -> bool
    requires graph { IsRateable graph.now }
    requires wants { AreForwardRatios graph.now count wants.now }
    requires few { length done.now < count }
    requires range { All IsCapacity done.now }
    requires ways { AreWays graph.now count (followed count done.now 16) ways.old }
    ensures ways { AreWays graph.now count (followed count done.now 16) ways.new }
    ensures next { IsTrue result → IsTightNext graph.now count wants.now done.now next.now.capacity }
{
    let capacity = next.capacity;
    if capacity == 2 {
        return true;
    }
    if capacity < 2 || capacity > 16 {
        return false;
    }
    lengthen(graph, count, done, ways, next.root, &next.ways);
    match closed(graph, count, done, capacity - 1, ways, &next.closing) {
        Some(way) => is_below(wants, way),
        None => false,
    }
}

/// The capacities that a guess proposes, or none where the test of one fails.
fn tight_sizes(
    alloc: Global,
    graph: &Graph,
    wants: &[Ratio],
    count: u32,
    guess: &mut SizeGuess,
    ways: &mut [Way],
) -> Result<Option<Vec<u32>>, AllocError>
    requires graph { IsRateable graph.now }
    requires wants { AreForwardRatios graph.now count wants.now }
    requires ways { ways.old ≡ from_each empty_way 0 graph.now.nodes }
    ensures { IfOk result (λ found. IfSome found (λ caps. (length caps.items ≡ count) × AreTight graph.now count wants.now caps.items)) }
{
    let mut done = Vec::new(alloc);
    for _ in 0..count {
        propose_next(guess, wants)?;
        if !is_next(graph, wants, count, &done, ways, &guess.next) {
            return Ok(None);
        }
        done.push(guess.next.capacity)?;
    }
    Ok(Some(done))
}

/// The capacities of a guess for so many stations, or none where its test fails.
///
/// # Errors
/// Where there is no memory.
pub(crate) fn guessed_sizes(
    alloc: Global,
    graph: &Graph,
    wants: &[Ratio],
    count: u32,
    cert: &Cert,
) -> Result<Option<Vec<u32>>, AllocError>
    requires graph { IsRateable graph.now }
    requires wants { AreForwardRatios graph.now count wants.now }
    ensures { IfOk result (λ found. IfSome found (λ caps. (length caps.items ≡ count) × AreTight graph.now count wants.now caps.items)) }
{
    let mut guess = begin_sizes(alloc, graph, count, cert)?;
    let mut ways = first_ways(alloc, graph)?;
    tight_sizes(alloc, graph, wants, count, &mut guess, &mut ways)
}

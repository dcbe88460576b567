//! Sizing of the stations of a placement.

ghost use Rattle.std.specs.Prelude.{◌≡◌, ℕ, length, replicate, IfOk, IfSome};
ghost use Rattle.lid_graph.specs.declared.graph.Graph.{Graph};
ghost use Rattle.lid_stations.specs.Placed.{links_in};
ghost use Rattle.lid_stations.specs.Placements.{links_of, Fits, station_count};
ghost use Rattle.lid_system.specs.Systems.{IsWellFormed};
ghost use Rattle.lid_size.specs.Comparing.{AreCompared, IsFirstLow, AreWants, ReachesWith};
ghost use Rattle.lid_size.specs.Sizing.{sized, greatest};
ghost use Rattle.lid_size.specs.Sizes.{IsReachedPlacement, Sizes, FitsIfReached, short_end};

use crate::choosing::{choose, greatest, placement_of, tested};
use crate::comparing::{find_low, want_of};
use lid_cert::Cert;
use lid_graph::Graph;
use lid_rate::find;
use lid_rate_ratio::Ratio;
use lid_size_forward::forward_ratios;
use lid_stations::{Placed, Placement, marking};
use lid_system::System;
use std::alloc::{AllocError, Global};

/// What sizing answers.
#[derive(Drop)]
pub enum SizeEnd {
    /// The placement with the first capacities, from 2 to 16 each, with which each component has its forward
    /// ratio.
    Reached(Placement),
    /// There are none.
    Short {
        /// The first component whose ratio stays below its forward ratio with 16 everywhere, as the number of
        /// its part in the certificate.
        part: u32,
        /// Its ratio there is `have_p/have_q`.
        have_p: u64,
        have_q: u64,
        /// Its forward ratio is `want_p/want_q`.
        want_p: u64,
        want_q: u64,
        /// A certificate of the marking with 16 everywhere. The closed walk of the part has the ratio
        /// `have_p/have_q`.
        cert: Cert,
    },
}

/// The answer where capacities reach, by tests of all of them.
fn searched(alloc: Global, widest: &Placed<'_>, wants: &[Ratio]) -> Result<SizeEnd, AllocError>
    requires widest { widest.now.placement.caps ≡ greatest widest.now.placement.relays }
    requires wants { AreWants widest.now wants.now }
    requires greatest { ReachesWith widest.now (greatest widest.now.placement.relays) }
    ensures { IfOk result (Sizes (links_in widest.now) widest.now.placement.relays) }
{
    let caps = choose(alloc, widest, wants)?;
    let sized = placement_of(alloc, widest.placement.relays.as_slice(), caps)?;
    Ok(SizeEnd::Reached(sized))
}

/// The answer where capacities reach: those of a guess, where its test succeeds.
fn reached(
    alloc: Global,
    widest: &Placed<'_>,
    graph: &Graph,
    wants: &[Ratio],
    cert: &Cert,
) -> Result<SizeEnd, AllocError>
    requires widest { widest.now.placement.caps ≡ greatest widest.now.placement.relays }
    requires graph { graph.now ≡ sized (links_in widest.now) widest.now.placement.relays widest.now.placement.caps }
    requires wants { AreWants widest.now wants.now }
    requires greatest { ReachesWith widest.now (greatest widest.now.placement.relays) }
    ensures { IfOk result (Sizes (links_in widest.now) widest.now.placement.relays) }
{
    match tested(alloc, widest, graph, wants, cert)? {
        Some(sized) => Ok(SizeEnd::Reached(sized)),
        None => searched(alloc, widest, wants),
    }
}

/// The answer where no capacities reach, with the first part whose ratio is below its forward ratio.
fn short(cert: Cert, wants: &[Ratio], low: u32) -> SizeEnd
    requires compared { (g : Graph) × (n : ℕ) × AreCompared g n cert wants.now }
    requires low { IsFirstLow wants.now cert.parts low }
    ensures { result ≡ short_end wants.now low cert }
{
    let part = &cert.parts.as_slice()[low as usize];
    let want = want_of(part, wants);
    let (have_p, have_q) = (part.p, part.q);
    SizeEnd::Short {
        part: low,
        have_p,
        have_q,
        want_p: want.p,
        want_q: want.q,
        cert,
    }
}

/// The answer from the marking with 16 everywhere.
fn size_from(alloc: Global, widest: &Placed<'_>, graph: &Graph) -> Result<SizeEnd, AllocError>
    requires widest { widest.now.placement.caps ≡ greatest widest.now.placement.relays }
    requires graph { graph.now ≡ sized (links_in widest.now) widest.now.placement.relays widest.now.placement.caps }
    ensures { IfOk result (Sizes (links_in widest.now) widest.now.placement.relays) }
{
    let wants = forward_ratios(alloc, graph, widest.placement.caps.len() as u32)?;
    let cert = find(alloc, graph)?;
    match find_low(&cert, &wants) {
        Some(low) => Ok(short(cert, &wants, low)),
        None => reached(alloc, widest, graph, &wants, &cert),
    }
}

/// The placement of a guess from the marking with 16 everywhere.
fn guess_from(
    alloc: Global,
    widest: &Placed<'_>,
    graph: &Graph,
) -> Result<Option<Placement>, AllocError>
    requires widest { widest.now.placement.caps ≡ greatest widest.now.placement.relays }
    requires graph { graph.now ≡ sized (links_in widest.now) widest.now.placement.relays widest.now.placement.caps }
    ensures { IfOk result (λ found. IfSome found (IsReachedPlacement (links_in widest.now) widest.now.placement.relays)) }
{
    let wants = forward_ratios(alloc, graph, widest.placement.caps.len() as u32)?;
    let cert = find(alloc, graph)?;
    tested(alloc, widest, graph, &wants, &cert)
}

/// The placement with 16 everywhere.
fn widest(alloc: Global, placement: &Placement) -> Result<Placement, AllocError>
    requires { length placement.now.caps ≡ station_count placement.now.relays }
    ensures relays { IfOk result (λ p. p.relays ≡ placement.now.relays) }
    ensures caps { IfOk result (λ p. p.caps ≡ greatest placement.now.relays) }
{
    let caps = greatest(alloc, placement.caps.len())?;
    placement_of(alloc, placement.relays.as_slice(), caps)
}

/// The first capacities of all stations, home stations too, with which the relay stations of a placement
/// cost no throughput that they need not: of all lists of capacities from 2 to 16, in the order of station
/// numbers, the lexicographically first with which the ratio of each component of the marking is that of its
/// edges forth and self edges alone. Where there is none, the first component that falls short, and a
/// certificate of the marking with 16 everywhere. The capacities of the placement are not looked at.
///
/// # Errors
/// Where there is no memory.
pub fn size(alloc: Global, system: &System, placement: &Placement) -> Result<SizeEnd, AllocError>
    requires system { IsWellFormed system.now }
    requires fits { Fits system.now placement.now }
    ensures is { IfOk result (Sizes (links_of system.now) placement.now.relays) }
    ensures fits { IfOk result (FitsIfReached system.now) }
{
    let widest = widest(alloc, placement)?;
    let graph = marking(alloc, system, &widest)?;
    let placed = Placed {
        system,
        placement: &widest,
    };
    size_from(alloc, &placed, &graph)
}

/// What a guess of the first capacities that reach answers, where its test succeeds. Where it does not, `size`
/// searches, which takes longer; so tests call this.
///
/// # Errors
/// Where there is no memory.
pub fn size_by_guess(
    alloc: Global,
    system: &System,
    placement: &Placement,
) -> Result<Option<Placement>, AllocError>
    requires system { IsWellFormed system.now }
    requires fits { Fits system.now placement.now }
    ensures { IfOk result (λ found. IfSome found (IsReachedPlacement (links_of system.now) placement.now.relays)) }
{
    let widest = widest(alloc, placement)?;
    let graph = marking(alloc, system, &widest)?;
    let placed = Placed {
        system,
        placement: &widest,
    };
    guess_from(alloc, &placed, &graph)
}

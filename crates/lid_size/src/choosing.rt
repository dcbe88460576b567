//! Capacities that are chosen station by station: each the least that reaches with 16 for all later
//! stations.

ghost use Rattle.std.specs.Prelude.{◌≡◌, ℕ, ◌<◌, ◌≤◌, ◌↔◌, length, replicate, IsTrue, IfOk, IfSome};
ghost use Rattle.std.specs.List.{All};
ghost use Rattle.lid_stations.specs.Placed.{links_in};
ghost use Rattle.lid_stations.specs.Placements.{station_count, IsCapacity};
ghost use Rattle.lid_size.specs.Choices.{followed, AreChosen, IsNextCapacity};
ghost use Rattle.lid_size.specs.Comparing.{AreWants, ReachesWith};
ghost use Rattle.lid_size.specs.Sizes.{IsReachedPlacement};
ghost use Rattle.lid_size.specs.Sizing.{sized, greatest, IsFirst};

use crate::comparing::reaches;
use crate::testing::guessed_sizes;
use lid_base::Items;
use lid_cert::Cert;
use lid_graph::Graph;
use lid_rate_ratio::Ratio;
use lid_stations::{Placed, Placement};
use std::alloc::{AllocError, Global};

/// So many capacities of 16.
pub(crate) fn greatest(alloc: Global, count: usize) -> Result<Vec<u32>, AllocError>
    ensures { IfOk result (λ caps. caps.items ≡ replicate count 16) }
{
    Vec::from_elem(alloc, 16, count)
}

/// Some capacities, then one, then 16 for all later stations.
fn followed(alloc: Global, count: usize, done: &[u32], next: u32) -> Result<Vec<u32>, AllocError>
    requires { length done.now < count }
    ensures { IfOk result (λ caps. caps.items ≡ followed count done.now next) }
{
    let later = greatest(alloc, count - (done.len() + 1))?;
    let mut caps = Vec::from_slice(alloc, done)?;
    caps.push(next)?;
    caps.extend_from_slice(&later)?;
    Ok(caps)
}

/// A placement with these capacities.
pub(crate) fn placement_of(
    alloc: Global,
    relays: &[u32],
    caps: Vec<u32>,
) -> Result<Placement, AllocError>
    ensures relays { IfOk result (λ p. p.relays ≡ relays.now) }
    ensures caps { IfOk result (λ p. p.caps ≡ caps.items) }
{
    let relays = Vec::from_slice(alloc, relays)?;
    Ok(Placement {
        relays: Items::from_vec(relays),
        caps: Items::from_vec(caps),
    })
}

/// Whether these capacities, then one, then 16 for all later stations reach.
fn reaches_with(
    alloc: Global,
    placed: &Placed<'_>,
    wants: &[Ratio],
    done: &[u32],
    next: u32,
) -> Result<bool, AllocError>
    requires wants { AreWants placed.now wants.now }
    requires few { length done.now < station_count placed.now.placement.relays }
    requires range { All IsCapacity done.now }
    requires next { IsCapacity next }
    ensures { IfOk result (λ all. IsTrue all ↔ ReachesWith placed.now (followed (station_count placed.now.placement.relays) done.now next)) }
{
    let caps = followed(alloc, placed.placement.caps.len(), done, next)?;
    let trial = placement_of(alloc, placed.placement.relays.as_slice(), caps)?;
    let tried = Placed {
        system: placed.system,
        placement: &trial,
    };
    reaches(alloc, &tried, wants)
}

/// The least capacity of the next station that reaches with 16 for all later ones.
fn next_capacity(
    alloc: Global,
    placed: &Placed<'_>,
    wants: &[Ratio],
    done: &[u32],
) -> Result<u32, AllocError>
    requires wants { AreWants placed.now wants.now }
    requires few { length done.now < station_count placed.now.placement.relays }
    requires range { All IsCapacity done.now }
    requires greatest { ReachesWith placed.now (followed (station_count placed.now.placement.relays) done.now 16) }
    ensures { IfOk result (IsNextCapacity (ReachesWith placed.now) (station_count placed.now.placement.relays) done.now) }
{
    for next in 2..16u32 {
        if reaches_with(alloc, placed, wants, done, next)? {
            return Ok(next);
        }
    }
    Ok(16)
}

/// The placement of a guess, where its walks and a certificate show that its capacities are the first that
/// reach.
///
/// # Errors
/// Where there is no memory.
pub(crate) fn tested(
    alloc: Global,
    widest: &Placed<'_>,
    graph: &Graph,
    wants: &[Ratio],
    cert: &Cert,
) -> Result<Option<Placement>, AllocError>
    requires widest { widest.now.placement.caps ≡ greatest widest.now.placement.relays }
    requires graph { graph.now ≡ sized (links_in widest.now) widest.now.placement.relays widest.now.placement.caps }
    requires wants { AreWants widest.now wants.now }
    ensures { IfOk result (λ found. IfSome found (IsReachedPlacement (links_in widest.now) widest.now.placement.relays)) }
{
    let count = widest.placement.caps.len() as u32;
    let Some(caps) = guessed_sizes(alloc, graph, wants, count, cert)? else {
        return Ok(None);
    };
    let trial = placement_of(alloc, widest.placement.relays.as_slice(), caps)?;
    let tried = Placed {
        system: widest.system,
        placement: &trial,
    };
    if reaches(alloc, &tried, wants)? {
        Ok(Some(trial))
    } else {
        Ok(None)
    }
}

/// The first capacities that reach.
///
/// # Errors
/// Where there is no memory.
pub(crate) fn choose(
    alloc: Global,
    placed: &Placed<'_>,
    wants: &[Ratio],
) -> Result<Vec<u32>, AllocError>
    requires wants { AreWants placed.now wants.now }
    requires greatest { ReachesWith placed.now (greatest placed.now.placement.relays) }
    ensures { IfOk result (λ caps. IsFirst (ReachesWith placed.now) (station_count placed.now.placement.relays) caps.items) }
{
    let mut done = Vec::new(alloc);
    for _ in 0..placed.placement.caps.len() {
        let next = next_capacity(alloc, placed, wants, &done)?;
        done.push(next)?;
    }
    Ok(done)
}

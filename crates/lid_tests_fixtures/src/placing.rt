//! Placements of relay stations.

ghost use Rattle.std.specs.Prelude.{◌≡◌, IfSome};
ghost use Rattle.lid_system.specs.Systems.{IsWellFormed};
ghost use Rattle.lid_stations.specs.Placements.{Fits};

use crate::netlists::system_of;
use lid_base::Items;
use lid_stations::Placement;
use lid_stations_text::read_stations;
use lid_system::System;
use std::alloc::Global;

/// A system and its stations.
#[derive(Drop)]
pub struct SystemAndStations {
    /// The system.
    pub system: System,
    /// Its stations.
    pub placement: Placement,
}

/// The system of a netlist with its stations. None where one of the texts is refused, where the design is not
/// accepted or has too many channels, and for want of memory.
pub fn placed_of(alloc: Global, netlist: &[u8], stations: &[u8]) -> Option<SystemAndStations>
    ensures system { IfSome result (λ placed. IsWellFormed placed.system) }
    ensures fits { IfSome result (λ placed. Fits placed.system placed.placement) }
{
    let Some(system) = system_of(alloc, netlist) else {
        return None;
    };
    match read_stations(alloc, stations, &system) {
        Ok(placement) => Some(SystemAndStations { system, placement }),
        Err(_) => None,
    }
}

/// The placement with so many relay stations on each channel, and stations of these capacities. None for want of memory.
pub fn placement_of(alloc: Global, relays: &[u32], caps: &[u32]) -> Option<Placement>
    ensures relays { IfSome result (λ p. p.relays ≡ relays.now) }
    ensures caps { IfSome result (λ p. p.caps ≡ caps.now) }
{
    let Ok(relays) = Vec::from_slice(alloc, relays) else {
        return None;
    };
    let Ok(caps) = Vec::from_slice(alloc, caps) else {
        return None;
    };
    Some(Placement {
        relays: Items::from_vec(relays),
        caps: Items::from_vec(caps),
    })
}

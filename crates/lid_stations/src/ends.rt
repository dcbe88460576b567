//! The actors at both ends of a station.

ghost use Rattle.std.specs.Prelude.{◌≡◌};
ghost use Rattle.lid_stations.specs.Placements.{links_of};
ghost use Rattle.lid_stations.specs.Stations.{fills, drains, IsPlace};

use crate::placement::Placement;
use lid_system::System;

/// The actor that fills the station at a place of channel c, from 0 at its producer on. `first` is the
/// number of the channel's first mover.
pub fn filler(system: &System, placement: &Placement, c: usize, place: u32, first: u32) -> u32
    requires { IsPlace system.now placement.now c place first }
    ensures { result ≡ fills (links_of system.now) placement.now c place }
{
    if place == 0 {
        system.channels.as_slice()[c].from
    } else {
        first + (place - 1)
    }
}

/// The actor that drains the station at a place of channel c, from 0 at its producer on. `first` is the
/// number of the channel's first mover.
pub fn drainer(system: &System, placement: &Placement, c: usize, place: u32, first: u32) -> u32
    requires { IsPlace system.now placement.now c place first }
    ensures { result ≡ drains (links_of system.now) placement.now c place }
{
    if place == placement.relays.as_slice()[c] {
        system.channels.as_slice()[c].to
    } else {
        first + place
    }
}

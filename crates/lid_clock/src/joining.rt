//! The stations of a run, which are laid empty and joined to actors one by one.

ghost use Rattle.std.specs.Prelude.{◌≡◌, ◌+◌, ◌-◌, ◌<◌, ◌≤◌, ◌++◌, [], ◌∷◌, length, take, slice_index_or, IfOk, OnOk};
ghost use Rattle.lid_stations.specs.Placements.{station_count};
ghost use Rattle.lid_stations.specs.Placed.{links_in};
ghost use Rattle.lid_clock.specs.Starts.{IsEmptyBetween, HasLaid, KeepsNew, Joins, IsNextSlot, CanJoin};

use crate::actor::ClockActor;
use crate::places::Places;
use crate::station::ClockStation;
use lid_stations::{Placed, drainer, filler};
use std::alloc::{AllocError, Global};

impl ClockActor {
    /// Joins a station that it drains.
    fn drains(&mut self, station: u32) -> Result<(), AllocError>
        ensures ins { OnOk result (self.new.ins.items ≡ self.old.ins.items ++ station ∷ []) }
        ensures rest { OnOk result (self.new ≡ record self.old { ins = self.new.ins }) }
    {
        self.ins.push(station)?;
        Ok(())
    }

    /// Joins a station that it fills, and answers its slot.
    fn fills(&mut self, station: u32) -> Result<u32, AllocError>
        requires { length self.old.outs.items ≤ 65536 }
        ensures slot { IfOk result (λ slot. slot ≡ length self.old.outs.items) }
        ensures outs { OnOk result (self.new.outs.items ≡ self.old.outs.items ++ station ∷ []) }
        ensures rest { OnOk result (self.new ≡ record self.old { outs = self.new.outs }) }
    {
        let slot = self.outs.len() as u32;
        self.outs.push(station)?;
        Ok(slot)
    }
}

/// Joins a station to the actors that fill and drain it, and answers its slot.
fn join(
    actors: &mut [ClockActor],
    station: u32,
    filler: u32,
    drainer: u32,
) -> Result<u32, AllocError>
    requires { CanJoin filler drainer actors.old }
    ensures joins { OnOk result (Joins station filler drainer actors.old actors.new) }
    ensures slot { IfOk result (IsNextSlot filler actors.old) }
{
    let slot = actors[filler as usize].fills(station)?;
    actors[drainer as usize].drains(station)?;
    Ok(slot)
}

/// Lays an empty station between two actors.
fn lay(
    alloc: Global,
    actors: &mut [ClockActor],
    station: u32,
    filler: u32,
    drainer: u32,
    capacity: u32,
) -> Result<ClockStation, AllocError>
    requires joins { CanJoin filler drainer actors.old }
    requires some { 0 < capacity }
    requires few { capacity ≤ 16 }
    ensures joins { OnOk result (Joins station filler drainer actors.old actors.new) }
    ensures empty { IfOk result (IsEmptyBetween filler drainer capacity) }
    ensures slot { IfOk result (λ x. IsNextSlot filler actors.old x.slot) }
{
    let places = Places::new(alloc, capacity as usize)?;
    let slot = join(actors, station, filler, drainer)?;
    Ok(ClockStation {
        filler,
        slot,
        drainer,
        put: 0,
        taken: 0,
        places,
    })
}

/// Lays the stations of channel c, of which the first has this number.
fn lay_channel(
    alloc: Global,
    placed: &Placed<'_>,
    c: usize,
    station: usize,
    actors: &mut [ClockActor],
    stations: &mut Vec<ClockStation>,
) -> Result<(), AllocError>
    requires there { c < length placed.now.placement.relays }
    requires first { station ≡ station_count (take c placed.now.placement.relays) }
    requires laid { HasLaid (links_in placed.now) placed.now.placement station actors.old stations.old.items }
    ensures laid { OnOk result (HasLaid (links_in placed.now) placed.now.placement
        (station + (slice_index_or placed.now.placement.relays c 0 + 1)) actors.new stations.new.items) }
    ensures new { OnOk result (KeepsNew placed.now.system actors.old actors.new) }
{
    let first = (placed.system.nodes.len() + (station - c)) as u32;
    for place in 0..placed.placement.relays.as_slice()[c] + 1 {
        let number = station + place as usize;
        stations.push(lay(
            alloc,
            actors,
            number as u32,
            filler(placed.system, placed.placement, c, place, first),
            drainer(placed.system, placed.placement, c, place, first),
            placed.placement.caps.as_slice()[number],
        )?)?;
    }
    Ok(())
}

/// Lays all stations.
pub(crate) fn lay_stations(
    alloc: Global,
    placed: &Placed<'_>,
    actors: &mut [ClockActor],
    stations: &mut Vec<ClockStation>,
) -> Result<(), AllocError>
    requires none { HasLaid (links_in placed.now) placed.now.placement 0 actors.old stations.old.items }
    ensures laid { OnOk result (HasLaid (links_in placed.now) placed.now.placement
        (station_count placed.now.placement.relays) actors.new stations.new.items) }
    ensures new { OnOk result (KeepsNew placed.now.system actors.old actors.new) }
{
    let mut station = 0usize;
    for c in 0..placed.placement.relays.len() {
        lay_channel(alloc, placed, c, station, actors, stations)?;
        station += placed.placement.relays.as_slice()[c] as usize + 1;
    }
    Ok(())
}

//! From the lines of channels to a placement.

ghost use Rattle.std.specs.Prelude.{◌≡◌, ◌≤◌, ◌⊎◌, ◌++◌, map, flat_map, length, [], None, Some, Ok, Err, IfOk, IfErr, OnOk};
ghost use Rattle.std.specs.List.{All};
ghost use Rattle.lid_stations.specs.Placements.{links_of, Fits, station_count};
ghost use Rattle.lid_system.specs.Systems.{IsWellFormed};
ghost use Rattle.lid_stations_text.specs.Forms.{IsForm};
ghost use Rattle.lid_stations_text.specs.Places.{IsSoundPlace, IsPlacementOf, relays_at, caps_at};
ghost use Rattle.lid_stations_text.specs.Readings.{whole, rows_reading};

use crate::fault::PlaceFault;
use crate::form::{Form, push_caps, relays_of};
use crate::judging::lines_by_channel;
use lid_base::{Items, Line};
use lid_stations::Placement;
use lid_system::System;
use std::alloc::{AllocError, Global};

/// The most stations in all.
const MOST_STATIONS: u64 = 65_536;

/// The relay stations of the channel whose line has this place.
fn relays_at(form: Form, lines: &[Line], place: Option<usize>) -> u32
    requires form { IsForm form }
    requires sound { IsSoundPlace form lines.now place }
    ensures value { result ≡ relays_at form lines.now place }
    ensures few { result ≤ 64 }
{
    match place {
        Some(i) => relays_of(form, lines[i].words.as_slice()) as u32,
        None => 0,
    }
}

/// Appends the capacities of the channel whose line has this place.
fn push_caps_at(
    form: Form,
    lines: &[Line],
    place: Option<usize>,
    caps: &mut Vec<u32>,
) -> Result<(), AllocError>
    requires form { IsForm form }
    requires sound { IsSoundPlace form lines.now place }
    ensures { OnOk result (caps.new.items ≡ caps.old.items ++ caps_at form lines.now place) }
{
    match place {
        Some(i) => push_caps(form, lines[i].words.as_slice(), caps),
        None => {
            caps.push(2)?;
            Ok(())
        }
    }
}

/// The relay stations of all channels.
fn all_relays(
    alloc: Global,
    form: Form,
    lines: &[Line],
    places: &[Option<usize>],
) -> Result<Items<u32>, AllocError>
    requires form { IsForm form }
    requires sound { All (IsSoundPlace form lines.now) places.now }
    ensures value { IfOk result (λ relays. relays ≡ map (relays_at form lines.now) places.now) }
    ensures few { IfOk result (λ relays. All (λ k. k ≤ 64) relays) }
{
    let mut relays = Vec::with_capacity(alloc, places.len())?;
    for place in places {
        relays.push(relays_at(form, lines, *place))?;
    }
    Ok(Items::from_vec(relays))
}

/// The capacities of all stations.
fn all_caps(
    alloc: Global,
    form: Form,
    lines: &[Line],
    places: &[Option<usize>],
) -> Result<Items<u32>, AllocError>
    requires form { IsForm form }
    requires sound { All (IsSoundPlace form lines.now) places.now }
    ensures { IfOk result (λ caps. caps ≡ flat_map (caps_at form lines.now) places.now) }
{
    let mut caps = Vec::with_capacity(alloc, places.len())?;
    for place in places {
        push_caps_at(form, lines, *place, &mut caps)?;
    }
    Ok(Items::from_vec(caps))
}

/// How many stations there are.
fn count_stations(relays: &[u32]) -> u64
    requires few { All (λ k. k ≤ 64) relays.now }
    requires short { length relays.now ≤ 16384 }
    ensures { result ≡ station_count relays.now }
{
    let mut count = 0;
    for relays in relays {
        count += u64::from(*relays) + 1;
    }
    count
}

/// The relay stations and capacities of all channels.
fn build_from(
    alloc: Global,
    form: Form,
    lines: &[Line],
    places: &[Option<usize>],
) -> Result<Placement, AllocError>
    requires form { IsForm form }
    requires sound { All (IsSoundPlace form lines.now) places.now }
    ensures { IfOk result (IsPlacementOf form lines.now places.now) }
{
    let relays = all_relays(alloc, form, lines, places)?;
    let caps = all_caps(alloc, form, lines, places)?;
    Ok(Placement { relays, caps })
}

/// A placement, unless its stations are too many.
fn whole(placement: Placement) -> Result<Placement, PlaceFault>
    requires few { All (λ k. k ≤ 64) placement.relays }
    requires short { length placement.relays ≤ 16384 }
    ensures { result ≡ whole placement }
{
    let count = count_stations(placement.relays.as_slice());
    if count > MOST_STATIONS {
        return Err(PlaceFault::TotalLimit { count });
    }
    Ok(placement)
}

/// The placement that lines of such a form stand for.
pub(crate) fn build(
    alloc: Global,
    system: &System,
    form: Form,
    lines: &[Line],
) -> Result<Placement, PlaceFault>
    requires system { IsWellFormed system.now }
    requires form { IsForm form }
    ensures ok { IfOk result (λ p. rows_reading (links_of system.now) form lines.now ≡ Ok p) }
    ensures err { IfErr result (λ e. (e ≡ PlaceFault.Memory) ⊎ (rows_reading (links_of system.now) form lines.now ≡ Err e)) }
    ensures fits { IfOk result (Fits system.now) }
{
    match lines_by_channel(alloc, system, form, lines) {
        Ok(places) => match build_from(alloc, form, lines, places.as_slice()) {
            Ok(placement) => whole(placement),
            Err(_) => Err(PlaceFault::Memory),
        },
        Err(fault) => Err(fault),
    }
}

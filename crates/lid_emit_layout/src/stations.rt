//! The stations of a wrapped system.

ghost use Rattle.std.specs.Prelude.{◌≡◌, ◌==◌, if◌then◌else◌, IfOk};
ghost use Rattle.lid_stations.specs.Stations.{starts};
ghost use Rattle.lid_emit_shells.specs.Shells.{nets_of};
ghost use Rattle.lid_emit_cells.specs.Matches.{IsStationOf, IsSmallStation};
ghost use Rattle.lid_emit_layout.specs.Plans.{plan_of};
ghost use Rattle.lid_emit_layout.specs.Sites.{IsSite};
ghost use Rattle.lid_emit_layout.specs.Stations.{AreStationsOf};

use crate::bits::make_bits;
use crate::sites::{Site, make_sites};
use lid_emit_cells::Station;
use lid_emit_shells::Shells;
use lid_stations::Placed;
use std::alloc::{AllocError, Global};

/// The tokens that a station starts with: the first of its channel has one, where the source does not
/// fill it.
fn first_count(site: Site) -> u32
    ensures { result ≡ (if site.filler == 0 then 0 else starts site.place) }
{
    if site.filler == 0 {
        0
    } else if site.place == 0 {
        1
    } else {
        0
    }
}

/// A station of the system.
fn make_station(
    alloc: Global,
    placed: &Placed<'_>,
    shells: &Shells,
    site: Site,
) -> Result<Station, AllocError>
    requires site { IsSite placed.now.system placed.now.placement site }
    ensures is { IfOk result (IsStationOf (plan_of placed.now (nets_of shells.now)) site.station) }
    ensures small { IfOk result IsSmallStation }
{
    let channel = &placed.system.channels.as_slice()[site.channel as usize];
    let bits = make_bits(alloc, placed.system, shells, channel, site)?;
    Ok(Station {
        filler: site.filler,
        drainer: site.drainer,
        capacity: placed.placement.caps.as_slice()[site.station as usize],
        first: first_count(site),
        bits,
    })
}

/// All stations, in order.
pub(crate) fn make_stations(
    alloc: Global,
    placed: &Placed<'_>,
    shells: &Shells,
) -> Result<Vec<Station>, AllocError>
    ensures { IfOk result (λ stations. AreStationsOf (plan_of placed.now (nets_of shells.now)) stations.items) }
{
    let sites = make_sites(alloc, placed)?;
    let mut stations = Vec::new(alloc);
    for site in sites.as_slice() {
        stations.push(make_station(alloc, placed, shells, *site)?)?;
    }
    Ok(stations)
}

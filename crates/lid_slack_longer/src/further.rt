//! Further relay stations on a channel.

ghost use Rattle.std.specs.Prelude.{◌≡◌, ◌+◌, ◌<◌, ◌≤◌, ◌++◌, length, take, drop, replicate, slice_index_or, slice_set, IfOk};
ghost use Rattle.lid_stations.specs.Placements.{IsPlacement};
ghost use Rattle.lid_slack_longer.specs.Longer.{room, longer, stations_through, last_station};

use lid_base::Items;
use lid_stations::Placement;
use std::alloc::{AllocError, Global};

/// The most relay stations on a channel.
const MOST_RELAYS: u32 = 64;

/// The most stations in all.
const MOST_STATIONS: u32 = 65536;

/// How many further relay stations a channel has room for, from 0 to 64: as many as the channel may have,
/// and as all channels together may have stations.
pub fn room(placement: &Placement, channel: u32) -> u32
    requires placement { IsPlacement placement.now }
    requires there { channel < length placement.now.relays }
    ensures { result ≡ room placement.now channel }
{
    let on_channel = MOST_RELAYS - placement.relays.as_slice()[channel as usize];
    let in_all = MOST_STATIONS - placement.caps.len() as u32;
    on_channel.min(in_all)
}

/// The placement with so many further relay stations of capacity 2 after the last station of a channel.
///
/// # Errors
/// Where there is no memory.
pub fn longer(
    alloc: Global,
    placement: &Placement,
    channel: u32,
    more: u32,
) -> Result<Placement, AllocError>
    requires placement { IsPlacement placement.now }
    requires there { channel < length placement.now.relays }
    requires enough { more ≤ room placement.now channel }
    ensures { IfOk result (λ p. p ≡ longer placement.now channel more) }
{
    let end = stations_through(placement, channel);
    let relays = more_relays(alloc, placement.relays.as_slice(), channel, more)?;
    let caps = more_capacities(alloc, placement.caps.as_slice(), end, more)?;
    Ok(Placement { relays, caps })
}

/// How many stations the channels up to and with this one have.
pub fn stations_through(placement: &Placement, channel: u32) -> usize
    requires placement { IsPlacement placement.now }
    requires there { channel < length placement.now.relays }
    ensures is { result ≡ stations_through placement.now.relays channel }
    ensures within { result ≤ length placement.now.caps }
{
    let relays = placement.relays.as_slice();
    let mut count = 0usize;
    for c in 0..channel as usize + 1 {
        count += relays[c] as usize + 1;
    }
    count
}

/// The number of the last station of a channel.
pub fn last_station(placement: &Placement, channel: u32) -> u32
    requires placement { IsPlacement placement.now }
    requires there { channel < length placement.now.relays }
    ensures is { result ≡ last_station placement.now channel }
    ensures small { result < 65536 }
{
    stations_through(placement, channel).saturating_sub(1) as u32
}

/// The counts of relay stations, with so many more on a channel.
fn more_relays(
    alloc: Global,
    relays: &[u32],
    channel: u32,
    more: u32,
) -> Result<Items<u32>, AllocError>
    requires there { channel < length relays.now }
    requires few { slice_index_or relays.now channel 0 + more ≤ 64 }
    ensures { IfOk result (λ all. all ≡ slice_set relays.now channel (slice_index_or relays.now channel 0 + more)) }
{
    let mut all = Vec::from_slice(alloc, relays)?;
    all[channel as usize] += more;
    Ok(Items::from_vec(all))
}

/// So many capacities of 2.
fn twos(alloc: Global, count: u32) -> Result<Vec<u32>, AllocError>
    ensures { IfOk result (λ all. all.items ≡ replicate count 2) }
{
    Vec::from_elem(alloc, 2, count as usize)
}

/// The capacities, with so many more of 2 at a place.
fn more_capacities(
    alloc: Global,
    caps: &[u32],
    place: usize,
    more: u32,
) -> Result<Items<u32>, AllocError>
    requires within { place ≤ length caps.now }
    ensures { IfOk result (λ all. all ≡ take place caps.now ++ (replicate more 2 ++ drop place caps.now)) }
{
    let mut all = Vec::from_slice(alloc, &caps[..place])?;
    let further = twos(alloc, more)?;
    all.extend_from_slice(further.as_slice())?;
    all.extend_from_slice(&caps[place..])?;
    Ok(Items::from_vec(all))
}

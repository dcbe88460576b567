//! The size of the stations.

ghost use Rattle.std.specs.Prelude.{◌≡◌, ◌<◌, ◌+◌, ◌*◌, length, min, take, slice_index_or};
ghost use Rattle.lid_stations.specs.Placed.{links_in};
ghost use Rattle.lid_stations.specs.Placements.{station_count};
ghost use Rattle.lid_emit_meaning.specs.Sizes.{sizes_from, stations_size};

use lid_stations::Placed;

/// The size of all stations, at most 18,446,744,073,709,551,615.
pub fn stations_size(placed: &Placed<'_>) -> u64
    ensures { result ≡ min (stations_size (links_in placed.now) placed.now.placement) 18446744073709551615 }
{
    let mut size = 0u64;
    let mut station = 0usize;
    for c in 0..placed.placement.relays.len() {
        size = size.saturating_add(channel_size(placed, c, station));
        station += placed.placement.relays.as_slice()[c] as usize + 1;
    }
    size
}

/// The size of the stations of channel c, of which the first has this number.
fn channel_size(placed: &Placed<'_>, c: usize, station: usize) -> u64
    requires there { c < length placed.now.placement.relays }
    requires first { station ≡ station_count (take c placed.now.placement.relays) }
    ensures { result ≡ min (sizes_from (links_in placed.now) placed.now.placement station (slice_index_or placed.now.placement.relays c 0 + 1))
        18446744073709551615 }
{
    let ports = placed.system.channels.as_slice()[c].ports.as_slice().len();
    let mut size = 0u64;
    for place in 0..placed.placement.relays.as_slice()[c] + 1 {
        let capacity = placed.placement.caps.as_slice()[station + place as usize];
        size = size.saturating_add(station_size(capacity, ports));
    }
    size
}

/// The size of a station of this capacity on a channel of so many ports.
fn station_size(capacity: u32, ports: usize) -> u64
    requires { ports < 32 }
    ensures { result ≡ min (capacity * (1 + ports)) 18446744073709551615 }
{
    u64::from(capacity).saturating_mul(ports as u64 + 1)
}

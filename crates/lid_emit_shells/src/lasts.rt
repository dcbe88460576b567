//! The last stations of channels.

ghost use Rattle.std.specs.Prelude.{◌≡◌, ◌≤◌, IfOk};
ghost use Rattle.lid_stations.specs.Placements.{station_count};
ghost use Rattle.lid_emit_shells.specs.Reading.{lasts_from};

use std::alloc::{AllocError, Global};

/// The last station of each channel, of channels with so many relay stations. There are at most 65,536
/// stations, numbered from 0.
///
/// # Errors
/// Where there is no memory.
pub fn last_stations(alloc: Global, relays: &[u32]) -> Result<Vec<u32>, AllocError>
    requires { station_count relays.now ≤ 65536 }
    ensures { IfOk result (λ lasts. lasts.items ≡ lasts_from 0 relays.now) }
{
    let mut lasts = Vec::with_capacity(alloc, relays.len())?;
    let mut first = 0;
    for count in relays {
        let last = first + *count;
        lasts.push(last)?;
        first = last + 1;
    }
    Ok(lasts)
}

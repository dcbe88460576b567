//! The greatest number of further relay stations that keeps a ratio, by bisection: what is kept with some is
//! kept with fewer.

ghost use Rattle.std.specs.Prelude.{◌≡◌, IfOk};
ghost use Rattle.lid_slack_longer.specs.Longer.{room};
ghost use Rattle.lid_slack.specs.Trials.{CanProbe, ShowsPresent, IsMostOf};

use crate::trial::{Probe, keeps};
use std::alloc::{AllocError, Global};

/// The greatest number of further relay stations that keeps the present ratio. It may try as many numbers
/// as the room has binary digits.
pub(crate) fn bisect(alloc: Global, probe: &Probe<'_>, most: u32) -> Result<u32, AllocError>
    requires can { CanProbe probe.now most }
    requires room { most ≡ room probe.now.placement.now probe.now.channel }
    requires present { ShowsPresent probe.now }
    ensures { IfOk result (IsMostOf probe.now) }
{
    if keeps(alloc, probe, most)? {
        return Ok(most);
    }
    let mut low = 0;
    let mut high = most;
    while high - low > 1 {
        let middle = low + (high - low) / 2;
        if keeps(alloc, probe, middle)? {
            low = middle;
        } else {
            high = middle;
        }
    }
    Ok(low)
}

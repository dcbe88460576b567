//! The second phase of a cycle: all stations settle.

ghost use Rattle.std.specs.Prelude.{◌<◌};
ghost use Rattle.lid_clock.specs.Cycles.{CanSettleAll, AllSettle, EachCanSettle, EachSettles};

use crate::shares::share_length;
use lid_clock::{ClockActor, ClockStation, settle_each};
use std::thread;
use std::thread::Threads;

/// All stations settle, on so many workers at most.
pub(crate) fn settle_on<R: Threads + Sync>(
    rt: &R,
    stations: &mut [ClockStation],
    actors: &[ClockActor],
    workers: u32,
)
    requires can { CanSettleAll stations.old actors.now }
    requires some { 0 < workers }
    ensures { AllSettle stations.old actors.now stations.new }
{
    let size = share_length(stations.len(), workers);
    thread::for_each_chunk_mut(
        rt,
        stations,
        size,
        &|_start: usize, share: &mut [ClockStation]|
            requires { EachCanSettle share.now actors.now }
            ensures { EachSettles share.entry.now actors.entry.now share.exit.now }
        { settle_each(share, actors) },
    );
}

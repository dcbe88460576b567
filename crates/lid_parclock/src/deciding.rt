//! The first phase of a cycle: all actors decide.

ghost use Rattle.std.specs.Prelude.{◌≡◌, ℕ, ◌/◌, ◌^◌, ◌<◌, false, length};
ghost use Rattle.lid_clock.specs.Cycles.{CanDecideAll, AllDecide};
ghost use Rattle.lid_parclock.specs.Shares.{EachCanDecide, EachDecides};

use crate::shares::{share_at, share_length};
use lid_base::Gate;
use lid_clock::{ClockActor, ClockStation};
use std::thread;
use std::thread::Threads;

/// The actors of a share decide, and none is held.
fn decide_share(share: &mut [ClockActor], stations: &[ClockStation])
    requires { EachCanDecide share.old stations.now }
    ensures { EachDecides share.old stations.now share.new }
{
    for i in 0..share.len() {
        share[i].decide(stations, false);
    }
}

/// All actors decide, on so many workers at most, and none is held. Whoever decides for a share first passes
/// the gate, with the number of the share and that of the cycle.
pub(crate) fn decide_on<R: Threads + Sync, G: Gate>(
    rt: &R,
    actors: &mut [ClockActor],
    stations: &[ClockStation],
    workers: u32,
    cycle: u64,
    gate: &G,
)
    requires can { CanDecideAll actors.old stations.now }
    requires some { 0 < workers }
    ensures { (sunk : ℕ) → AllDecide actors.old stations.now sunk false false actors.new }
{
    let size = share_length(actors.len(), workers);
    thread::for_each_chunk_mut(
        rt,
        actors,
        size,
        &|start: usize, share: &mut [ClockActor]|
            requires { (0 < size) × (start / size < 2 ^ 32) × EachCanDecide share.now stations.now }
            ensures { EachDecides share.entry.now stations.entry.now share.exit.now }
        {
            gate.pass(share_at(start, size), cycle);
            decide_share(share, stations)
        },
    );
}

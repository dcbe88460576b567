//! Cycles on several workers.

ghost use Rattle.std.specs.Prelude.{◌≡◌, ◌↔◌, ℕ, suc, ◌<◌, true, false};
ghost use Rattle.lid_clock.specs.Lives.{Life, IsBelow, HoldsNobody};
ghost use Rattle.lid_clock.specs.Ran.{Ran, CanCycle};

use crate::deciding::decide_on;
use crate::settling::settle_on;
use lid_base::Gate;
use lid_clock::ClockStream;
use std::thread::Threads;

/// Makes a cycle on 1 to 64 workers, in which nobody is held, where the sink has not yet fired for each row,
/// and answers whether it made one. No row is wanting. It leaves the state and gives the answer of
/// `ClockStream::cycle`, for every number of workers, and takes no memory.
///
/// The actors are cut, in order, into shares of as many as all divided by the workers, rounded up. Whoever
/// decides for a share first passes the gate, with the number of the share, from 0, and `cycle`.
pub fn cycle_on<R: Threads + Sync, G: Gate>(
    rt: &R,
    stream: &mut ClockStream,
    workers: u32,
    cycle: u64,
    gate: &G,
) -> bool
    requires can { CanCycle stream.old }
    requires some { 0 < workers }
    ensures ran { (l : Life) (k g : ℕ) → Ran l k g stream.old → HoldsNobody l k → result ≡ true → Ran l (suc k) g stream.new }
    ensures made { (l : Life) (k g : ℕ) → Ran l k g stream.old → (result ≡ true) ↔ IsBelow l k }
    ensures kept { result ≡ false → stream.new ≡ stream.old }
{
    if !stream.below() {
        return false;
    }
    decide_on(
        rt,
        &mut stream.actors,
        &stream.stations,
        workers,
        cycle,
        gate,
    );
    settle_on(rt, &mut stream.stations, &stream.actors, workers);
    true
}

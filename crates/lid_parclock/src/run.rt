//! Runs on several workers, over rows that are held at hand.

ghost use Rattle.std.specs.Prelude.{◌≡◌, ◌↔◌, ℕ, suc, ◌<◌, true, false};
ghost use Rattle.lid_clock.specs.Lives.{Life, IsBelow};
ghost use Rattle.lid_clock.specs.Clocks.{Clocks, IsClockedRun, IsOver};

use crate::cycle::cycle_on;
use lid_base::Gate;
use lid_clock::Clocked;
use std::thread::Threads;

/// Makes a cycle on several workers where the sink has not yet fired for each row. Answers whether it made
/// one.
fn go_on<R: Threads + Sync, G: Gate>(
    rt: &R,
    clocked: &mut Clocked<'_>,
    workers: u32,
    gate: &G,
) -> bool
    requires run { IsClockedRun clocked.old }
    requires some { 0 < workers }
    ensures made { (l : Life) (k : ℕ) → Clocks l k clocked.old → result ≡ true → Clocks l (suc k) clocked.new }
    ensures still { (l : Life) (k : ℕ) → Clocks l k clocked.old → result ≡ false → Clocks l k clocked.new }
    ensures below { (l : Life) (k : ℕ) → Clocks l k clocked.old → (result ≡ true) ↔ IsBelow l k }
{
    if !clocked.ready() {
        return false;
    }
    let cycle = clocked.made();
    cycle_on(rt, &mut clocked.stream, workers, cycle, gate);
    clocked.keep();
    true
}

/// Makes cycles on 1 to 64 workers until the sink has fired for each row, and answers how many were made since
/// the start. It leaves the state and gives the answer of `Clocked::run`, for every number of workers, and takes
/// no memory.
///
/// The actors are cut, in order, into shares of as many as all divided by the workers, rounded up. Whoever
/// decides for a share in a cycle first passes the gate, with the number of the share and that of the cycle,
/// both from 0; cycles are counted from the start of the run.
pub fn run_on<R: Threads + Sync, G: Gate>(
    rt: &R,
    clocked: &mut Clocked<'_>,
    workers: u32,
    gate: &G,
) -> u64
    requires run { IsClockedRun clocked.old }
    requires some { 0 < workers }
    ensures ran { (l : Life) (k : ℕ) → Clocks l k clocked.old → Clocks l result clocked.new }
    ensures over { (l : Life) (k : ℕ) → Clocks l k clocked.old → IsOver l result }
{
    while go_on(rt, clocked, workers, gate) {}
    clocked.made()
}

//! How a crew works.

ghost use Rattle.std.specs.Prelude.{◌≡◌, ◌≤◌, ℕ, Some, slice_get};
ghost use Rattle.std.specs.List.{All};
ghost use Rattle.std.specs.Thread.{IsSync};
ghost use Rattle.lid_free_crew.specs.Posts.{IsReady};
ghost use Rattle.lid_free_crew.specs.Crews.{HasWorked, HaveWorked};
ghost use Rattle.lid_free_crew.specs.declared.worker.Worker.{Worker};

use crate::worker::{Worker, work};
use lid_base::Gate;
use lid_board::Board;
use std::thread;
use std::thread::Threads;

/// Lets all workers make so many rounds at a board, each in a thread of its own where one can be made, all at once.
/// It comes back once all have made them.
pub fn work_all<R: Threads + Sync, G: Gate>(
    rt: &R,
    board: &Board,
    crew: &mut [Worker<'_>],
    rounds: u64,
    gate: &G,
)
    requires ready { (i : ℕ) (w : Worker) → slice_get crew.old i ≡ Some w → IsReady board.now w }
    requires few { rounds ≤ 1000000 }
    ensures { HaveWorked board.now rounds crew.old crew.new }
{
    let threads = crew.len().max(1);
    thread::for_each_mut(
        rt,
        crew,
        threads,
        &|_, worker: &mut Worker<'_>| -> ()
            requires { IsReady board.now worker.old × (rounds ≤ 1000000) }
            ensures { HasWorked board.entry.now rounds worker.old worker.new }
        { work(worker, board, rounds, gate) },
    );
}

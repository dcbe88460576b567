//! How actors are dealt.

ghost use Rattle.std.specs.Prelude.{◌≡◌, ◌<◌, ℕ, [], length, Some, slice_get, OnOk};
ghost use Rattle.lid_free_crew.specs.Crews.{AreDealt};
ghost use Rattle.lid_free_crew.specs.declared.worker.Worker.{Worker};

use crate::worker::Worker;
use lid_shell::Actor;
use std::alloc::AllocError;

/// Deals actors to workers that have none: actor a to worker a mod the number of workers.
///
/// # Errors
/// Memory is wanting.
pub fn deal<'r>(actors: Vec<Actor<'r>>, crew: &mut [Worker<'r>]) -> Result<(), AllocError>
    requires some { 0 < length crew.old }
    requires idle { (i : ℕ) (w : Worker) → slice_get crew.old i ≡ Some w → w.actors.items ≡ [] }
    ensures { OnOk result (AreDealt actors.entry.items crew.old crew.new) }
{
    let mut worker = 0usize;
    for actor in actors {
        crew[worker].actors.push(actor)?;
        worker = (worker + 1) % crew.len();
    }
    Ok(())
}

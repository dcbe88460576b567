//! Free runs.

ghost use Rattle.std.specs.Prelude.{◌≡◌, ◌<◌, ◌≤◌, ◌^◌, ℕ, length, IfOk};
ghost use Rattle.std.specs.List.{AllByRecursion};
ghost use Rattle.lid_system.specs.Systems.{IsWellFormed};
ghost use Rattle.lid_stations.specs.Placements.{Fits};
ghost use Rattle.lid_shell_laws.specs.Setups.{Setup, IsInputRow};
ghost use Rattle.lid_texts_packed.specs.Input.{input_of};
ghost use Rattle.lid_walk.specs.Setups.{IsSetupOf};
ghost use Rattle.lid_free.specs.Gathering.{AreGathered};
ghost use Rattle.lid_free.specs.Settings.{IsSetOut};
ghost use Rattle.lid_free.specs.FreeRuns.{IsFreeEnd};
ghost use Rattle.lid_free.specs.Endings.{IsEnding};

use crate::ending::settle;
use crate::gathering::{Left, gather, note_fired, note_passed, run_all};
use crate::setting::{Room, Setting, set_out};
use lid_base::{Gate, Items, Tally};
use lid_stations::Placement;
use lid_system::System;
use lid_texts::Rows;
use lid_texts_packed::InputRows;
use lid_walk::Walk;
use std::alloc::{AllocError, Global};
use std::thread::Threads;

/// What a free run gives.
#[derive(Drop)]
pub struct FreeEnd {
    /// The strict output rows.
    pub rows: Rows,
    /// What each worker counted in the parallel phase.
    pub tallies: Items<Tally>,
    /// The sweeps that were made after it, until every actor was at its cap.
    pub finish: u64,
    /// The firings of these sweeps.
    pub finish_fired: u64,
    /// How often each actor fired in the parallel phase.
    pub fired: Items<u64>,
    /// How many tokens were taken from each station in the parallel phase.
    pub passed: Items<u64>,
}

/// Makes the sweeps after the parallel phase, and ends the run.
fn end_run(left: Left<'_>, mut room: Room) -> FreeEnd
    requires { (m : Setup) × (workers : ℕ) × (made : ℕ) × AreGathered m workers made left.plain.pairs.items left.actors.items room.tallies.items
        × (length room.fired.items ≡ length left.actors.items) × (length room.passed.items ≡ length left.plain.pairs.items) }
    ensures { (m : Setup) (workers made : ℕ) → AreGathered m workers made left.entry.plain.pairs.items left.entry.actors.items room.tallies.items
        → IsEnding m workers made result }
{
    note_fired(left.actors.as_slice(), room.fired.as_mut_slice());
    note_passed(left.plain.pairs.as_slice(), room.passed.as_mut_slice());
    let Left { plain, actors } = left;
    let Room {
        tallies,
        fired,
        passed,
    } = room;
    let mut walk = Walk::adopt(plain, actors);
    let sweeps = settle(&mut walk);
    FreeEnd {
        rows: walk.into_rows(),
        tallies: Items::from_vec(tallies),
        finish: sweeps.count,
        finish_fired: sweeps.fired,
        fired: Items::from_vec(fired),
        passed: Items::from_vec(passed),
    }
}

/// Runs what was set out: each worker makes so many rounds, at most 1,000,000, in a thread of its own, all at once over
/// one shared board; it passes the gate before each. Then all ends are gathered, and sweeps are made until every actor is
/// at its cap. Without rows no worker is started and no sweep is made. It takes no memory.
pub fn run_out<R: Threads + Sync, G: Gate>(
    rt: &R,
    setting: Setting<'_>,
    rounds: u64,
    gate: &G,
) -> FreeEnd
    requires some { (m : Setup) × (workers : ℕ) × IsSetOut m workers setting }
    requires few { rounds ≤ 1000000 }
    ensures { (m : Setup) (workers : ℕ) → IsSetOut m workers setting.entry → IsFreeEnd m workers rounds result }
{
    let Setting {
        boards,
        mut crew,
        mut room,
        rows,
    } = setting;
    run_all(
        rt,
        &boards.board,
        crew.workers.as_mut_slice(),
        rows,
        rounds,
        gate,
    );
    let left = gather(boards, crew, room.tallies.as_mut_slice());
    end_run(left, room)
}

/// Makes a free run of a system with its stations over input rows: at most 1,000,000, each as wide as the source.
/// Actor a belongs to worker a mod the number of workers, 1 to 64. Each worker makes so many rounds, at most
/// 1,000,000, in a thread of its own, all at once over one shared board; it passes the gate before each. Then all ends
/// are gathered, and sweeps are made until every actor is at its cap. Without rows no worker is started and no sweep is
/// made. All memory is taken before a thread is started: what is set out by [`set_out`] is run by [`run_out`], which
/// takes none.
///
/// # Errors
/// Memory is wanting.
pub fn free_run<R: Threads + Sync, G: Gate>(
    rt: &R,
    alloc: Global,
    system: &System,
    placement: &Placement,
    rows: &Rows,
    workers: u32,
    rounds: u64,
    gate: &G,
) -> Result<FreeEnd, AllocError>
    requires system { IsWellFormed system.now }
    requires fits { Fits system.now placement.now }
    requires few { length rows.now.bits ≤ 1000000 }
    requires wide { AllByRecursion (IsInputRow system.now) rows.now.bits }
    requires some { (0 < workers) × (workers ≤ 64) }
    requires rounds { rounds ≤ 1000000 }
    ensures { IfOk result (λ end. (m : Setup) → IsSetupOf m system.now placement.now rows.now.bits → IsFreeEnd m workers rounds end) }
{
    let rows = InputRows::Listed(rows);
    free_run_over(rt, alloc, system, placement, rows, workers, rounds, gate)
}

/// Makes a free run over input rows that are listed or packed, as [`free_run`] does.
///
/// # Errors
/// Memory is wanting.
pub fn free_run_over<R: Threads + Sync, G: Gate>(
    rt: &R,
    alloc: Global,
    system: &System,
    placement: &Placement,
    rows: InputRows<'_>,
    workers: u32,
    rounds: u64,
    gate: &G,
) -> Result<FreeEnd, AllocError>
    requires system { IsWellFormed system.now }
    requires fits { Fits system.now placement.now }
    requires few { length (input_of rows) ≤ 1000000 }
    requires wide { AllByRecursion (IsInputRow system.now) (input_of rows) }
    requires some { (0 < workers) × (workers ≤ 64) }
    requires rounds { rounds ≤ 1000000 }
    ensures { IfOk result (λ end. (m : Setup) → IsSetupOf m system.now placement.now (input_of rows.entry) → IsFreeEnd m workers rounds end) }
{
    let setting = set_out(alloc, system, placement, rows, workers)?;
    Ok(run_out(rt, setting, rounds, gate))
}

//! Clocked runs that workers make, or that are laid flat.

ghost use Rattle.std.specs.Prelude.{◌≡◌, ◌↔◌, ℕ, suc, ◌+◌, ◌^◌, ◌<◌, ◌≤◌, min, true, Some, slice_get, IfOk};
ghost use Rattle.lid_stations.specs.Placements.{links_of, station_count};
ghost use Rattle.lid_stations.specs.Stations.{actor_count};
ghost use Rattle.lid_clock.specs.Lives.{Life, StartsSo, NeedsRow, IsBelow, IsLast, HoldsNobody, sink, fired_after, shown_after};
ghost use Rattle.lid_shell_laws.specs.Setups.{IsInputRow};
ghost use Rattle.lid_clock.specs.Ran.{lent, IsFirstRow};
ghost use Rattle.lid_stall_text.specs.Holds.{Ascend, listed, hold_of};
ghost use Rattle.lid_stall.specs.Runs.{IsHeldBy, stalled_after};
ghost use Rattle.lid_top_clock.specs.Courses.{RanBy};

use crate::task::Task;
use crate::workers::Workers;
use lid_base::{Gate, Items, Shown};
use lid_clock::ClockStream;
use lid_clock_flat::FlatClock;
use lid_parclock::cycle_on;
use lid_stall::Stall;
use std::alloc::{AllocError, Global};
use std::thread::Threads;

/// A clocked run whose cycles workers make, and in which nobody is held, or one that is laid flat, which stalls hold
/// or nobody.
#[derive(Drop)]
pub(crate) enum Course {
    Worked(ClockStream),
    Flat(FlatClock),
}

impl Course {
    /// A run in which nobody is held, for workers.
    fn worked(alloc: Global, task: &Task<'_>, first: Option<&[bool]>) -> Result<Course, AllocError>
        requires few { task.now.rows ≤ 1000000 }
        requires first { IsFirstRow task.now.placed.now.system task.now.rows (lent first) }
        ensures { IfOk result (λ course. (l : Life) → StartsSo l task.now.placed.now.system task.now.placed.now.placement task.now.rows (lent first.entry)
            → ((k : ℕ) → HoldsNobody l k) → RanBy l 0 (min 1 task.now.rows) course) }
    {
        let placed = task.placed;
        let stream = ClockStream::start(alloc, placed.system, placed.placement, task.rows, first)?;
        Ok(Course::Worked(stream))
    }

    /// A run that is laid flat, and that these stalls hold, whose cycles ascend.
    fn flat(
        alloc: Global,
        task: &Task<'_>,
        first: Option<&[bool]>,
        stalls: Items<Stall>,
    ) -> Result<Course, AllocError>
        requires few { task.now.rows ≤ 1000000 }
        requires first { IsFirstRow task.now.placed.now.system task.now.rows (lent first) }
        requires ascend { Ascend stalls }
        ensures { IfOk result (λ course. (l : Life) → StartsSo l task.now.placed.now.system task.now.placed.now.placement task.now.rows (lent first.entry)
            → IsHeldBy l stalls → RanBy l 0 (min 1 task.now.rows) course) }
    {
        let clock = FlatClock::start(alloc, task.placed, task.rows, first, stalls)?;
        Ok(Course::Flat(clock))
    }

    /// Starts the run of a task, of which the first row is given, where there are rows. It has the width of the
    /// source. Stalls hold it, where some are given, whose cycles ascend. Where none are, workers make its cycles, if
    /// there are two of them or more.
    ///
    /// # Errors
    /// Where there is no memory.
    pub(crate) fn start(
        alloc: Global,
        task: &Task<'_>,
        first: Option<&[bool]>,
        stalls: Option<Items<Stall>>,
        workers: u32,
    ) -> Result<Course, AllocError>
        requires few { task.now.rows ≤ 1000000 }
        requires first { IsFirstRow task.now.placed.now.system task.now.rows (lent first) }
        requires ascend { Ascend (listed stalls) }
        ensures { IfOk result (λ course. (l : Life) → StartsSo l task.now.placed.now.system task.now.placed.now.placement task.now.rows (lent first.entry)
            → l.hold ≡ hold_of stalls (sink l) → RanBy l 0 (min 1 task.now.rows) course) }
    {
        match stalls {
            Some(stalls) => Course::flat(alloc, task, first, stalls),
            None if 1 < workers => Course::worked(alloc, task, first),
            None => Course::flat(alloc, task, first, Items::from_vec(Vec::new(alloc))),
        }
    }

    /// Whether a row is wanting.
    pub(crate) fn needs(&self) -> bool
        ensures { (l : Life) (k g : ℕ) → RanBy l k g self.now → (result ≡ true) ↔ NeedsRow l k g }
    {
        match self {
            Course::Worked(stream) => stream.needs(),
            Course::Flat(clock) => clock.needs(),
        }
    }

    /// Takes the next row, where one is wanting. The row has the width of the source.
    pub(crate) fn give(&mut self, row: &[bool])
        requires { (l : Life) × (k : ℕ) × (g : ℕ) × RanBy l k g self.old × NeedsRow l k g × IsInputRow l.setup.system row.now }
        ensures { (l : Life) (k g : ℕ) → RanBy l k g self.old → slice_get l.setup.input g ≡ Some row.now → RanBy l k (g + 1) self.new }
    {
        match self {
            Course::Worked(stream) => stream.give(row),
            Course::Flat(clock) => clock.give(row),
        }
    }

    /// Whether the sink has fired fewer times than there are rows.
    pub(crate) fn below(&self) -> bool
        ensures { (l : Life) (k g : ℕ) → RanBy l k g self.now → (result ≡ true) ↔ IsBelow l k }
    {
        match self {
            Course::Worked(stream) => stream.below(),
            Course::Flat(clock) => clock.below(),
        }
    }

    /// Makes a cycle where the sink has not yet fired for each row, and answers whether it made one. No row
    /// is wanting. The cycle has this number, counted from 0.
    pub(crate) fn cycle<R: Threads + Sync, G: Gate>(
        &mut self,
        workers: &Workers<'_, R, G>,
        number: u64,
    ) -> bool
        requires some { 0 < workers.now.many }
        requires can { (l : Life) × (k : ℕ) × (g : ℕ) × RanBy l k g self.old × ¬ NeedsRow l k g }
        ensures ran { (l : Life) (k g : ℕ) → RanBy l k g self.old → result ≡ true → RanBy l (suc k) g self.new }
        ensures made { (l : Life) (k g : ℕ) → RanBy l k g self.old → (result ≡ true) ↔ IsBelow l k }
        ensures counts { (l : Life) (k g : ℕ) → RanBy l k g self.old → result ≡ true → k + 1 < 2 ^ 64 }
    {
        match self {
            Course::Worked(stream) => cycle_on(
                workers.rt,
                stream,
                workers.many,
                number,
                workers.gate,
            ),
            Course::Flat(clock) => clock.cycle(),
        }
    }

    /// The output row of the last cycle made, where the sink fired in it.
    pub(crate) fn last(&self) -> Option<&[bool]>
        ensures { (l : Life) (k g : ℕ) → RanBy l k g self.now → IsLast l k (lent result) }
    {
        match self {
            Course::Worked(stream) => stream.last(),
            Course::Flat(clock) => clock.last(),
        }
    }

    /// What a station shows as the next cycle begins. The station exists.
    pub(crate) fn show(&self, station: u32) -> Shown
        requires { (l : Life) × (k : ℕ) × (g : ℕ) × RanBy l k g self.now × (station < station_count l.setup.placement.relays) }
        ensures { (l : Life) (k g : ℕ) → RanBy l k g self.now → result ≡ shown_after l k station }
    {
        match self {
            Course::Worked(stream) => stream.show(station),
            Course::Flat(clock) => clock.show(station),
        }
    }

    /// How often an actor has fired. The actor exists.
    pub(crate) fn fired(&self, actor: u32) -> u64
        requires { (l : Life) × (k : ℕ) × (g : ℕ) × RanBy l k g self.now × (actor < actor_count (links_of l.setup.system) l.setup.placement) }
        ensures { (l : Life) (k g : ℕ) → RanBy l k g self.now → result ≡ fired_after l k actor }
    {
        match self {
            Course::Worked(stream) => stream.fired(actor),
            Course::Flat(clock) => clock.fired(actor),
        }
    }

    /// In how many of the cycles made the source or the sink was held.
    pub(crate) fn stalled(&self) -> u64
        ensures { (l : Life) (k g : ℕ) → RanBy l k g self.now → result ≡ stalled_after l k }
    {
        match self {
            Course::Worked(_) => 0,
            Course::Flat(clock) => clock.stalled(),
        }
    }
}

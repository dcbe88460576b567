//! The flat run that stalls hold.

ghost use Rattle.std.specs.Prelude.{◌≡◌, ◌↔◌, ℕ, suc, ◌+◌, ◌^◌, ◌<◌, ◌≤◌, min, true, false, ◌||◌, if◌then◌else◌, Some, slice_get, IfOk};
ghost use Rattle.lid_stations.specs.Placements.{links_of, station_count};
ghost use Rattle.lid_stations.specs.Stations.{actor_count};
ghost use Rattle.lid_clock.specs.Lives.{Life, StartsSo, NeedsRow, IsBelow, IsLast, fired_after, shown_after};
ghost use Rattle.lid_shell_laws.specs.Setups.{IsInputRow};
ghost use Rattle.lid_clock.specs.Ran.{lent, IsFirstRow};
ghost use Rattle.lid_stall_text.specs.Holds.{Ascend};
ghost use Rattle.lid_stall.specs.Places.{due_of, next_place};
ghost use Rattle.lid_stall.specs.Runs.{IsHeldBy, IsOverBy, stalled_after};
ghost use Rattle.lid_clock_flat.specs.Clocks.{RanFlat};

use crate::run::FlatRun;
use lid_base::{Items, Shown};
use lid_stall::Stall;
use lid_stations::Placed;
use std::alloc::{AllocError, Global};

/// A clocked run in which stalls hold the source and the sink, or nobody where there are no stalls.
#[derive(Drop)]
pub struct FlatClock {
    run: FlatRun,
    stalls: Items<Stall>,
    /// The place of the first stall whose cycle is not past.
    next: usize,
    /// How many cycles were made.
    made: u64,
    /// In how many of them the source or the sink was held.
    stalled: u64,
}

/// The stall of a cycle, where it stands at this place, and else one that holds nobody.
fn due(stalls: &[Stall], place: usize, cycle: u64) -> Stall
    ensures { result ≡ due_of (slice_get stalls.now place) cycle }
{
    match stalls.get(place) {
        Some(stall) if stall.cycle == cycle => *stall,
        _ => Stall {
            cycle,
            source: false,
            sink: false,
        },
    }
}

/// The place of the next stall after a cycle.
fn after(stalls: &[Stall], place: usize, cycle: u64) -> usize
    ensures { result ≡ next_place (slice_get stalls.now place) place cycle }
{
    match stalls.get(place) {
        Some(stall) if stall.cycle == cycle => place + 1,
        _ => place,
    }
}

/// How many stalled cycles one with this stall is.
fn counted(stall: Stall) -> u64
    ensures { result ≡ (if stall.source || stall.sink then 1 else 0) }
{
    u64::from(stall.source || stall.sink)
}

impl FlatClock {
    /// Starts a run of so many rows, of which the first is given, where there are rows. It has the width of
    /// the source. There are at most a million rows. The source and the sink are held by these stalls, whose
    /// cycles ascend.
    ///
    /// # Errors
    /// Where there is no memory.
    pub fn start(
        alloc: Global,
        placed: &Placed<'_>,
        rows: u64,
        first: Option<&[bool]>,
        stalls: Items<Stall>,
    ) -> Result<FlatClock, AllocError>
        requires few { rows ≤ 1000000 }
        requires first { IsFirstRow placed.now.system rows (lent first) }
        requires stalls { Ascend stalls }
        ensures { IfOk result (λ clock. (l : Life) → StartsSo l placed.now.system placed.now.placement rows (lent first.entry) → IsHeldBy l stalls
            → RanFlat l 0 (min 1 rows) clock) }
    {
        let run = FlatRun::start(alloc, placed, rows, first)?;
        Ok(FlatClock {
            run,
            stalls,
            next: 0,
            made: 0,
            stalled: 0,
        })
    }

    /// Makes a cycle where the sink has not yet fired for each row, and answers whether it made one. In
    /// the cycle the source and the sink are held as the stalls say. No row is wanting.
    ///
    /// Where it made none, the run took as many cycles as one in which nobody is held, and at most one
    /// more for each cycle in which somebody was.
    pub fn cycle(&mut self) -> bool
        requires { (l : Life) × (k : ℕ) × (g : ℕ) × RanFlat l k g self.old × ¬ NeedsRow l k g }
        ensures ran { (l : Life) (k g : ℕ) → RanFlat l k g self.old → result ≡ true → RanFlat l (suc k) g self.new }
        ensures made { (l : Life) (k g : ℕ) → RanFlat l k g self.old → (result ≡ true) ↔ IsBelow l k }
        ensures over { (l : Life) (k g : ℕ) → RanFlat l k g self.old → result ≡ false → IsOverBy l k }
        ensures kept { result ≡ false → self.new ≡ self.old }
        ensures counts { (l : Life) (k g : ℕ) → RanFlat l k g self.old → result ≡ true → k + 1 < 2 ^ 64 }
    {
        let stall = due(self.stalls.as_slice(), self.next, self.made);
        if !self.run.cycle(stall.source, stall.sink) {
            return false;
        }
        self.next = after(self.stalls.as_slice(), self.next, self.made);
        self.stalled += counted(stall);
        self.made += 1;
        true
    }

    /// Whether the sink has fired fewer times than there are rows.
    pub fn below(&self) -> bool
        ensures { (l : Life) (k g : ℕ) → RanFlat l k g self.now → (result ≡ true) ↔ IsBelow l k }
    {
        self.run.below()
    }

    /// How many cycles were made in which the source or the sink was held.
    pub fn stalled(&self) -> u64
        ensures { (l : Life) (k g : ℕ) → RanFlat l k g self.now → result ≡ stalled_after l k }
    {
        self.stalled
    }

    /// How many cycles were made.
    pub fn made(&self) -> u64
        ensures { (l : Life) (k g : ℕ) → RanFlat l k g self.now → result ≡ k }
    {
        self.made
    }

    /// Whether a row is wanting: the source has fired for all rows but the last of those that were given,
    /// and is not at its last firing.
    pub fn needs(&self) -> bool
        ensures { (l : Life) (k g : ℕ) → RanFlat l k g self.now → (result ≡ true) ↔ NeedsRow l k g }
    {
        self.run.needs()
    }

    /// Takes the next row, where one is wanting. The row has the width of the source.
    pub fn give(&mut self, row: &[bool])
        requires { (l : Life) × (k : ℕ) × (g : ℕ) × RanFlat l k g self.old × NeedsRow l k g × IsInputRow l.setup.system row.now }
        ensures { (l : Life) (k g : ℕ) → RanFlat l k g self.old → slice_get l.setup.input g ≡ Some row.now → RanFlat l k (g + 1) self.new }
    {
        self.run.give(row);
    }

    /// The output row of the last cycle made, where the sink fired in it.
    pub fn last(&self) -> Option<&[bool]>
        ensures { (l : Life) (k g : ℕ) → RanFlat l k g self.now → IsLast l k (lent result) }
    {
        self.run.last()
    }

    /// What a station shows as the next cycle begins. The station exists.
    pub fn show(&self, station: u32) -> Shown
        requires { (l : Life) × (k : ℕ) × (g : ℕ) × RanFlat l k g self.now × (station < station_count l.setup.placement.relays) }
        ensures { (l : Life) (k g : ℕ) → RanFlat l k g self.now → result ≡ shown_after l k station }
    {
        self.run.show(station)
    }

    /// How often an actor has fired. The actor exists.
    pub fn fired(&self, actor: u32) -> u64
        requires { (l : Life) × (k : ℕ) × (g : ℕ) × RanFlat l k g self.now × (actor < actor_count (links_of l.setup.system) l.setup.placement) }
        ensures { (l : Life) (k g : ℕ) → RanFlat l k g self.now → result ≡ fired_after l k actor }
    {
        self.run.fired(actor)
    }
}

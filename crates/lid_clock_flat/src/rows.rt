//! The flat run over rows that are held at hand, in which nobody is held.

ghost use Rattle.std.specs.Prelude.{◌≡◌, ◌↔◌, ◌<◌, ◌≤◌, ℕ, suc, true, false, Bool, List, [], length, option_map, slice_get, slice_index_or, IfOk};
ghost use Rattle.std.specs.List.{AllByRecursion};
ghost use Rattle.lid_stations.specs.Placements.{station_count};
ghost use Rattle.lid_shell_laws.specs.Setups.{IsInputRow};
ghost use Rattle.lid_clock.specs.Lives.{Life, NeedsRow, IsBelow, IsLast, shown_after};
ghost use Rattle.lid_clock.specs.Ran.{lent};
ghost use Rattle.lid_clock.specs.Clocks.{IsFreeLife, IsOver};
ghost use Rattle.lid_texts_packed.specs.Input.{input_of};
ghost use Rattle.lid_clock_flat.specs.Feeds.{Feeds, IsFeeding};

use crate::clock::FlatClock;
use lid_base::{Items, Shown};
use lid_stations::Placed;
use lid_system::shells_stand_between_source_and_sink;
use lid_texts::Rows;
use lid_texts_packed::InputRows;
use std::alloc::{AllocError, Global};

/// A flat run over rows that are held at hand, in which nobody is held.
#[derive(Drop)]
pub struct FlatRows<'r> {
    clock: FlatClock,
    input: InputRows<'r>,
    /// The row that the run was given last.
    row: Vec<bool>,
    /// How many rows the run was given.
    given: usize,
}

/// The first of so many rows, where there is one.
fn first_of(row: &[bool], count: usize) -> Option<&[bool]>
    ensures { (rows : List (List Bool)) → length rows ≡ count → row.now ≡ slice_index_or rows 0 []
        → option_map (λ row. row.now) result ≡ slice_get rows 0 }
{
    if count > 0 { Some(row) } else { None }
}

impl<'r> FlatRows<'r> {
    /// Starts a run of a system with its stations over these rows: at most 1,000,000, each as wide as the
    /// source.
    ///
    /// # Errors
    /// Want of memory.
    pub fn start(
        alloc: Global,
        placed: &Placed<'_>,
        rows: &'r Rows,
    ) -> Result<FlatRows<'r>, AllocError>
        requires few { length rows.now.bits ≤ 1000000 }
        requires wide { AllByRecursion (IsInputRow placed.now.system) rows.now.bits }
        ensures { IfOk result (λ x. (l : Life) → IsFreeLife l rows.now.bits → l.setup.system ≡ placed.now.system
            → l.setup.placement ≡ placed.now.placement → Feeds l 0 x) }
    {
        FlatRows::start_over(alloc, placed, InputRows::Listed(rows))
    }

    /// Starts a run over rows that are listed or packed, as `start` does.
    ///
    /// # Errors
    /// Want of memory.
    pub fn start_over(
        alloc: Global,
        placed: &Placed<'_>,
        rows: InputRows<'r>,
    ) -> Result<FlatRows<'r>, AllocError>
        requires few { length (input_of rows) ≤ 1000000 }
        requires wide { AllByRecursion (IsInputRow placed.now.system) (input_of rows) }
        ensures { IfOk result (λ x. (l : Life) → IsFreeLife l (input_of rows.entry) → l.setup.system ≡ placed.now.system
            → l.setup.placement ≡ placed.now.placement → Feeds l 0 x) }
    {
        let count = rows.len();
        let row = rows.first(alloc)?;
        let none = Items::from_vec(Vec::new(alloc));
        let first = first_of(row.as_slice(), count);
        let clock = FlatClock::start(alloc, placed, count as u64, first, none)?;
        Ok(FlatRows {
            clock,
            input: rows,
            row,
            given: count.min(1),
        })
    }

    /// Gives the run its next row where it needs one.
    fn feed(&mut self)
        requires { IsFeeding self.old }
        ensures { (l : Life) (k : ℕ) → Feeds l k self.old → Feeds l k self.new × ¬ NeedsRow l k self.new.given }
    {
        shells_stand_between_source_and_sink();
        if self.clock.needs() {
            self.input.read(self.given, self.row.as_mut_slice());
            self.clock.give(self.row.as_slice());
            self.given += 1;
        }
    }

    /// Whether the sink has not yet fired for each row. It gives the run its next row where it needs one.
    pub fn ready(&mut self) -> bool
        requires { IsFeeding self.old }
        ensures ran { (l : Life) (k : ℕ) → Feeds l k self.old → Feeds l k self.new × ¬ NeedsRow l k self.new.given }
        ensures below { (l : Life) (k : ℕ) → Feeds l k self.old → (result ≡ true) ↔ IsBelow l k }
    {
        self.feed();
        self.clock.below()
    }

    /// Makes a cycle where the sink has not yet fired for each row, and answers whether it made one. Where it made
    /// none, the cycles made are the least after which the sink has fired for each row, and within the bound.
    pub fn cycle(&mut self) -> bool
        requires { IsFeeding self.old }
        ensures made { (l : Life) (k : ℕ) → Feeds l k self.old → result ≡ true → Feeds l (suc k) self.new }
        ensures still { (l : Life) (k : ℕ) → Feeds l k self.old → result ≡ false → Feeds l k self.new }
        ensures below { (l : Life) (k : ℕ) → Feeds l k self.old → (result ≡ true) ↔ IsBelow l k }
        ensures over { (l : Life) (k : ℕ) → Feeds l k self.old → result ≡ false → IsOver l k }
    {
        self.feed();
        self.clock.cycle()
    }

    /// The output row of the last cycle made, where the sink fired in it.
    pub fn last(&self) -> Option<&[bool]>
        ensures { (l : Life) (k : ℕ) → Feeds l k self.now → IsLast l k (lent result) }
    {
        self.clock.last()
    }

    /// What a station shows as the next cycle begins. The station exists.
    pub fn show(&self, station: u32) -> Shown
        requires { (l : Life) × (k : ℕ) × Feeds l k self.now × (station < station_count l.setup.placement.relays) }
        ensures { (l : Life) (k : ℕ) → Feeds l k self.now → result ≡ shown_after l k station }
    {
        self.clock.show(station)
    }
}

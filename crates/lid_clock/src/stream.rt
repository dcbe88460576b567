//! The clocked run over rows that are given one by one.

ghost use Rattle.std.specs.Prelude.{◌≡◌, ◌↔◌, ℕ, ◌+◌, ◌<◌, true, Some, slice_get};
ghost use Rattle.lid_stations.specs.Placements.{links_of, station_count};
ghost use Rattle.lid_stations.specs.Stations.{actor_count};
ghost use Rattle.lid_clock.specs.Lives.{Life, NeedsRow, IsBelow, IsLast, fired_after, shown_after};
ghost use Rattle.lid_clock.specs.Ran.{Ran, lent, CanGive};

use crate::actor::ClockActor;
use crate::station::ClockStation;
use lid_base::Shown;

/// A clocked run over rows that are given one by one.
#[derive(Drop)]
pub struct ClockStream {
    /// The actors, in the order of their numbers.
    pub actors: Vec<ClockActor>,
    /// The stations, in the order of their numbers.
    pub stations: Vec<ClockStation>,
    pub(crate) rows: u64,
    pub(crate) given: u64,
    pub(crate) sink: u32,
}

/// Whether a row is wanting where the source has fired so often, and so many of so many rows were given.
fn is_wanting(fired: u64, given: u64, rows: u64) -> bool
    ensures yes { result ≡ true → (given ≡ fired + 1) × (given < rows) }
    ensures no { given ≡ fired + 1 → given < rows → result ≡ true }
{
    given < rows && fired < given && given - fired == 1
}

impl ClockStream {
    /// Whether a row is wanting: the source has fired for all rows but the last of those that were given,
    /// and is not at its last firing.
    pub fn needs(&self) -> bool
        ensures { (l : Life) (k g : ℕ) → Ran l k g self.now → (result ≡ true) ↔ NeedsRow l k g }
    {
        match self.actors.first() {
            Some(source) => is_wanting(source.fired, self.given, self.rows),
            None => false,
        }
    }

    /// Takes the next row, where one is wanting. The row has the width of the source.
    pub fn give(&mut self, row: &[bool])
        requires { CanGive self.old row.now }
        ensures { (l : Life) (k g : ℕ) → Ran l k g self.old → slice_get l.setup.input g ≡ Some row.now → Ran l k (g + 1) self.new }
    {
        let actors = self.actors.as_mut_slice();
        actors[0].receive(row);
        self.given += 1;
    }

    /// Whether the sink has fired fewer times than there are rows.
    pub fn below(&self) -> bool
        ensures { (l : Life) (k g : ℕ) → Ran l k g self.now → (result ≡ true) ↔ IsBelow l k }
    {
        match self.actors.get(self.sink as usize) {
            Some(sink) => sink.fired < self.rows,
            None => false,
        }
    }

    /// The output row of the last cycle made, where the sink fired in it.
    pub fn last(&self) -> Option<&[bool]>
        ensures { (l : Life) (k g : ℕ) → Ran l k g self.now → IsLast l k (lent result) }
    {
        match self.actors.get(self.sink as usize) {
            Some(sink) => sink.last(),
            None => None,
        }
    }

    /// What a station shows as the next cycle begins. The station exists.
    pub fn show(&self, station: u32) -> Shown
        requires { (l : Life) × (k : ℕ) × (g : ℕ) × Ran l k g self.now × (station < station_count l.setup.placement.relays) }
        ensures { (l : Life) (k g : ℕ) → Ran l k g self.now → result ≡ shown_after l k station }
    {
        self.stations[station as usize].shown()
    }

    /// How often an actor has fired. The actor exists.
    pub fn fired(&self, actor: u32) -> u64
        requires { (l : Life) × (k : ℕ) × (g : ℕ) × Ran l k g self.now × (actor < actor_count (links_of l.setup.system) l.setup.placement) }
        ensures { (l : Life) (k g : ℕ) → Ran l k g self.now → result ≡ fired_after l k actor }
    {
        self.actors[actor as usize].fired
    }
}

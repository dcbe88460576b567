//! What is asked of a flat run, and its cycles.

ghost use Rattle.std.specs.Prelude.{◌≡◌, ◌↔◌, ℕ, suc, ◌+◌, ◌<◌, true, false, Some, slice_get};
ghost use Rattle.lid_stations.specs.Placements.{links_of, station_count};
ghost use Rattle.lid_stations.specs.Stations.{actor_count};
ghost use Rattle.lid_clock.specs.Lives.{Life, NeedsRow, IsBelow, IsLast, Holds, fired_after, shown_after};
ghost use Rattle.lid_clock.specs.Ran.{lent};
ghost use Rattle.lid_clock_flat.specs.Runs.{FlatRan, CanGive, CanCycle};

use crate::run::FlatRun;
use lid_base::Shown;
use lid_clock::runs_go_by_rules;

/// Whether a row is wanting where the source has fired so often, and so many of so many rows were given.
fn is_wanting(fired: u64, given: u64, rows: u64) -> bool
    ensures yes { result ≡ true → (given ≡ fired + 1) × (given < rows) }
    ensures no { given ≡ fired + 1 → given < rows → result ≡ true }
{
    given < rows && fired < given && given - fired == 1
}

impl FlatRun {
    /// Whether a row is wanting.
    pub(crate) fn needs(&self) -> bool
        ensures { (l : Life) (k g : ℕ) → FlatRan l k g self.now → (result ≡ true) ↔ NeedsRow l k g }
    {
        match self.nodes.first() {
            Some(source) => is_wanting(source.count(), self.given, self.rows),
            None => false,
        }
    }

    /// Takes the next row, where one is wanting.
    pub(crate) fn give(&mut self, row: &[bool])
        requires { CanGive self.old row.now }
        ensures { (l : Life) (k g : ℕ) → FlatRan l k g self.old → slice_get l.setup.input g ≡ Some row.now → FlatRan l k (g + 1) self.new }
    {
        let nodes = self.nodes.as_mut_slice();
        nodes[0].receive(row);
        self.given += 1;
    }

    /// Whether the sink has fired fewer times than there are rows.
    pub(crate) fn below(&self) -> bool
        ensures { (l : Life) (k g : ℕ) → FlatRan l k g self.now → (result ≡ true) ↔ IsBelow l k }
    {
        match self.nodes.last() {
            Some(sink) => sink.count() < self.rows,
            None => false,
        }
    }

    /// Makes a cycle where the sink has not yet fired for each row, and answers whether it made one. In the
    /// cycle the source and the sink may be held. No row is wanting.
    pub(crate) fn cycle(&mut self, source: bool, sink: bool) -> bool
        requires { CanCycle self.old }
        ensures ran { (l : Life) (k g : ℕ) → FlatRan l k g self.old → Holds l k source sink → result ≡ true → FlatRan l (suc k) g self.new }
        ensures made { (l : Life) (k g : ℕ) → FlatRan l k g self.old → (result ≡ true) ↔ IsBelow l k }
        ensures kept { result ≡ false → self.new ≡ self.old }
    {
        if !self.below() {
            return false;
        }
        runs_go_by_rules();
        self.decide_all(source, sink);
        self.settle_all();
        true
    }

    /// The output row of the last cycle made, where the sink fired in it.
    pub(crate) fn last(&self) -> Option<&[bool]>
        ensures { (l : Life) (k g : ℕ) → FlatRan l k g self.now → IsLast l k (lent result) }
    {
        match self.nodes.last() {
            Some(sink) => sink.last(),
            None => None,
        }
    }

    /// What a station shows as the next cycle begins.
    pub(crate) fn show(&self, station: u32) -> Shown
        requires { (l : Life) × (k : ℕ) × (g : ℕ) × FlatRan l k g self.now × (station < station_count l.setup.placement.relays) }
        ensures { (l : Life) (k g : ℕ) → FlatRan l k g self.now → result ≡ shown_after l k station }
    {
        self.stations.shown(station as usize)
    }

    /// How often an actor has fired.
    pub(crate) fn fired(&self, actor: u32) -> u64
        requires { (l : Life) × (k : ℕ) × (g : ℕ) × FlatRan l k g self.now × (actor < actor_count (links_of l.setup.system) l.setup.placement) }
        ensures { (l : Life) (k g : ℕ) → FlatRan l k g self.now → result ≡ fired_after l k actor }
    {
        let v = actor as usize;
        let nodes = self.nodes.len();
        if v < nodes {
            self.nodes[v].count()
        } else {
            self.movers[v - nodes].fired as u64
        }
    }
}

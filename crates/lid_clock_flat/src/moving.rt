//! The decisions of movers.

ghost use Rattle.std.specs.Prelude.{◌≡◌, ℕ, ◌+◌, ◌<◌, ◌^◌, true, false};
ghost use Rattle.lid_clock.specs.Lives.{Life};
ghost use Rattle.lid_clock_flat.specs.Rings.{RingsAreApart};
ghost use Rattle.lid_clock_flat.specs.Flats.{MoverBegins, MoverDecided};
ghost use Rattle.lid_clock_flat.specs.Moves.{SeesNoBar, SeesBar, AreBeside, HasMoved};

use crate::mover::FlatMover;
use crate::stations::FlatStations;
use lid_clock::runs_go_by_rules;

impl FlatMover {
    /// Whether it may fire.
    fn may_fire(&self, stations: &FlatStations) -> bool
        requires { AreBeside self.now stations.now.all.items }
        ensures yes { result ≡ true → SeesNoBar self.now stations.now.all.items }
        ensures no { result ≡ false → SeesBar self.now stations.now.all.items }
    {
        let station = self.station as usize;
        stations.all[station].is_valid() && stations.all[station + 1].has_room()
    }

    /// Moves a token on.
    fn go(&mut self, stations: &mut FlatStations)
        requires there { AreBeside self.old stations.old.all.items }
        requires apart { RingsAreApart stations.old.all.items stations.old.places.items }
        requires few { self.old.fired + 1 < 2 ^ 32 }
        ensures { HasMoved self.old stations.old self.new stations.new }
    {
        let station = self.station as usize;
        let token = stations.oldest(station);
        stations.offer(station + 1, token);
        self.fired += 1;
    }

    /// Decides, as a cycle begins, and fires where the mover may. Answers whether it fired.
    pub(crate) fn decide(&mut self, stations: &mut FlatStations) -> bool
        requires { (l : Life) × (k : ℕ) × (v : ℕ) × MoverBegins l k v self.old stations.old }
        ensures { (l : Life) (k v : ℕ) → MoverBegins l k v self.old stations.old → MoverDecided l k v result self.new stations.old stations.new }
    {
        runs_go_by_rules();
        if !self.may_fire(stations) {
            return false;
        }
        self.go(stations);
        true
    }
}

//! All stations of a flat run.

ghost use Rattle.std.specs.Prelude.{◌≡◌, ◌<◌, length, set, Some, slice_get};
ghost use Rattle.lid_clock_flat.specs.declared.station.FlatStation.{FlatStation};
ghost use Rattle.lid_shell_laws.specs.Views.{shown_as};
ghost use Rattle.lid_clock_flat.specs.Rings.{place_at, token_on, RingsAreApart};

use crate::station::FlatStation;
use lid_base::Shown;

/// The stations of a run, in the order of their numbers, and the places of all of them.
#[derive(Drop)]
pub struct FlatStations {
    pub(crate) all: Vec<FlatStation>,
    pub(crate) places: Vec<u32>,
}

impl FlatStations {
    /// The oldest token of a station.
    pub(crate) fn oldest(&self, station: usize) -> u32
        requires there { station < length self.now.all.items }
        requires apart { RingsAreApart self.now.all.items self.now.places.items }
        ensures { (x : FlatStation) → slice_get self.now.all.items station ≡ Some x → result ≡ token_on self.now.places.items x 0 }
    {
        self.places[self.all[station].first_place()]
    }

    /// Writes a token into the free place of a station.
    pub(crate) fn offer(&mut self, station: usize, token: u32)
        requires there { station < length self.old.all.items }
        requires apart { RingsAreApart self.old.all.items self.old.places.items }
        ensures all { self.new.all ≡ self.old.all }
        ensures places { (x : FlatStation) → slice_get self.old.all.items station ≡ Some x
            → self.new.places.items ≡ set self.old.places.items (place_at x x.held) token }
    {
        let place = self.all[station].free_place();
        self.places[place] = token;
    }

    /// What a station shows.
    pub(crate) fn shown(&self, station: usize) -> Shown
        requires there { station < length self.now.all.items }
        requires apart { RingsAreApart self.now.all.items self.now.places.items }
        ensures { (x : FlatStation) → slice_get self.now.all.items station ≡ Some x → result ≡ shown_as x.cap x.held 0 (token_on self.now.places.items x) }
    {
        let valid = self.all[station].is_valid();
        Shown {
            valid,
            stop: !self.all[station].has_room(),
            token: if valid { self.oldest(station) } else { 0 },
        }
    }
}

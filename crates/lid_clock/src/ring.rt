//! What is done at the ends of a station.

ghost use Rattle.std.specs.Prelude.{◌≡◌, ℕ, ◌+◌, ◌-◌, ◌%◌, ◌^◌, ◌<◌, ◌≤◌, true, false, nat_lt, length, set};
ghost use Rattle.lid_clock.specs.Rings.{token_in};
ghost use Rattle.lid_shell_laws.specs.Views.{shown_as};

use crate::station::ClockStation;
use lid_base::Shown;

impl ClockStation {
    /// Whether it holds a token.
    pub(crate) fn is_valid(&self) -> bool
        ensures { result ≡ nat_lt self.now.taken self.now.put }
    {
        self.taken < self.put
    }

    /// Whether it holds as many tokens as it has places.
    pub(crate) fn is_full(&self) -> bool
        ensures yes { result ≡ true → self.now.taken + length self.now.places ≤ self.now.put }
        ensures no { result ≡ false → self.now.put < self.now.taken + length self.now.places }
    {
        self.put - self.taken == self.places.len() as u64
    }

    /// Its oldest token.
    pub(crate) fn oldest(&self) -> u32
        ensures { result ≡ token_in self.now.places self.now.taken }
    {
        self.places.at(self.places.place_of(self.taken))
    }

    /// What it shows.
    pub(crate) fn shown(&self) -> Shown
        ensures { result ≡ shown_as (length self.now.places) self.now.put self.now.taken (token_in self.now.places) }
    {
        let valid = self.is_valid();
        Shown {
            valid,
            stop: self.put - self.taken == self.places.len() as u64,
            token: if valid { self.oldest() } else { 0 },
        }
    }

    /// Takes in a token.
    pub(crate) fn accept(&mut self, token: u32)
        requires room { self.old.put < self.old.taken + length self.old.places }
        requires few { self.old.put + 1 < 2 ^ 64 }
        ensures ends { (self.new.filler ≡ self.old.filler) × (self.new.slot ≡ self.old.slot) × (self.new.drainer ≡ self.old.drainer) }
        ensures put { self.new.put ≡ self.old.put + 1 }
        ensures taken { self.new.taken ≡ self.old.taken }
        ensures places { self.new.places ≡ set self.old.places (self.old.put % length self.old.places) token }
    {
        let place = self.places.place_of(self.put);
        self.places.put(place, token);
        self.put += 1;
    }

    /// Lets its oldest token go.
    pub(crate) fn release(&mut self)
        requires { self.old.taken < self.old.put }
        ensures ends { (self.new.filler ≡ self.old.filler) × (self.new.slot ≡ self.old.slot) × (self.new.drainer ≡ self.old.drainer) }
        ensures put { self.new.put ≡ self.old.put }
        ensures taken { self.new.taken ≡ self.old.taken + 1 }
        ensures places { self.new.places ≡ self.old.places }
    {
        let _put = self.put;
        self.taken += 1;
    }
}

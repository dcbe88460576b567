//! What actors and stations tell of themselves, and an actor that fires on tokens that it was handed.

ghost use Rattle.std.specs.Prelude.{◌≡◌, ◌+◌, ◌<◌, ◌≤◌, ◌^◌, ℕ, true, false, length, set};
ghost use Rattle.lid_clock.specs.Parts.{Passes};
ghost use Rattle.lid_clock.specs.Actors.{HasPlaces, IsSameActor, Rests};

use crate::actor::ClockActor;
use crate::station::ClockStation;

impl ClockActor {
    /// The stations that it drains, in order.
    pub fn drained(&self) -> &[u32]
        ensures { result.now ≡ self.now.ins.items }
    {
        self.ins.as_slice()
    }

    /// The stations that it fills, in order.
    pub fn filled(&self) -> &[u32]
        ensures { result.now ≡ self.now.outs.items }
    {
        self.outs.as_slice()
    }

    /// The tokens that it put last, in the order of the stations that it fills.
    pub fn put(&self) -> &[u32]
        ensures { result.now ≡ self.now.tokens.items }
    {
        self.tokens.as_slice()
    }

    /// How often it has fired.
    pub fn count(&self) -> u64
        ensures { result ≡ self.now.fired }
    {
        self.fired
    }

    /// Whether it has fired fewer times than it may.
    pub fn is_below_cap(&self) -> bool
        ensures yes { result ≡ true → self.now.fired < self.now.cap }
        ensures no { result ≡ false → self.now.cap ≤ self.now.fired }
    {
        self.fired < self.cap
    }

    /// Takes in a token from the station at a place among those that it drains.
    pub fn hand(&mut self, place: usize, token: u32)
        requires { place < length self.old.taken.items }
        ensures taken { self.new.taken.items ≡ set self.old.taken.items place token }
        ensures rest { self.new ≡ record self.old { taken = self.new.taken } }
    {
        self.taken[place] = token;
    }

    /// Fires on the tokens that it was handed.
    pub fn go(&mut self)
        requires places { HasPlaces self.old }
        requires few { self.old.fired + 1 < 2 ^ 64 }
        ensures same { IsSameActor self.old self.new }
        ensures fired { self.new.fired ≡ self.old.fired + 1 }
        ensures went { self.new.went ≡ true }
        ensures taken { self.new.taken.items ≡ self.old.taken.items }
        ensures places { HasPlaces self.new }
        ensures passes { Passes self.old.part self.new.taken.items self.new.tokens.items self.new.part }
    {
        self.part
            .pass(self.taken.as_slice(), self.tokens.as_mut_slice());
        self.fired += 1;
        self.went = true;
    }

    /// Does not fire.
    pub fn rest(&mut self)
        ensures { Rests self.old self.new }
    {
        self.went = false;
    }
}

impl ClockStation {
    /// The actor that fills it.
    pub fn filled_by(&self) -> u32
        ensures { result ≡ self.now.filler }
    {
        self.filler
    }

    /// The actor that drains it.
    pub fn drained_by(&self) -> u32
        ensures { result ≡ self.now.drainer }
    {
        self.drainer
    }

    /// Its places.
    pub fn ring(&self) -> &[u32]
        ensures { result.now ≡ self.now.places }
    {
        self.places.as_slice()
    }

    /// How many tokens were put in it.
    pub fn put_count(&self) -> u64
        ensures { result ≡ self.now.put }
    {
        self.put
    }

    /// How many tokens were taken from it.
    pub fn taken_count(&self) -> u64
        ensures { result ≡ self.now.taken }
    {
        self.taken
    }
}

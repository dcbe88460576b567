//! Cycles: all actors decide, and then all stations settle.

ghost use Rattle.std.specs.Prelude.{◌≡◌, ◌↔◌, ℕ, suc, Bool, true, false};
ghost use Rattle.lid_clock.specs.Lives.{Life, IsBelow, Holds, HoldsNobody};
ghost use Rattle.lid_clock.specs.Ran.{Ran, CanCycle};
ghost use Rattle.lid_clock.specs.Cycles.{held_at, CanDecideAll, AllDecide};

use crate::actor::ClockActor;
use crate::settling::settle_each;
use crate::station::ClockStation;
use crate::stream::ClockStream;

/// Whether an actor is held, where the source and the sink may be.
fn is_held(sunk: usize, source: bool, sink: bool, actor: usize) -> bool
    ensures { result ≡ held_at sunk source sink actor }
{
    if actor == 0 {
        source
    } else if actor == sunk {
        sink
    } else {
        false
    }
}

/// All actors decide.
fn decide_all(
    actors: &mut [ClockActor],
    stations: &[ClockStation],
    sunk: usize,
    source: bool,
    sink: bool,
)
    requires { CanDecideAll actors.old stations.now }
    ensures { AllDecide actors.old stations.now sunk source sink actors.new }
{
    for v in 0..actors.len() {
        actors[v].decide(stations, is_held(sunk, source, sink, v));
    }
}

impl ClockStream {
    /// Makes a cycle where the sink has not yet fired for each row, and answers whether it made one. In
    /// the cycle the source and the sink may be held. No row is wanting.
    pub fn cycle_held(&mut self, source: bool, sink: bool) -> bool
        requires { CanCycle self.old }
        ensures ran { (l : Life) (k g : ℕ) → Ran l k g self.old → Holds l k source sink → result ≡ true → Ran l (suc k) g self.new }
        ensures made { (l : Life) (k g : ℕ) → Ran l k g self.old → (result ≡ true) ↔ IsBelow l k }
        ensures kept { result ≡ false → self.new ≡ self.old }
    {
        if !self.below() {
            return false;
        }
        let sunk = self.sink as usize;
        decide_all(
            self.actors.as_mut_slice(),
            self.stations.as_slice(),
            sunk,
            source,
            sink,
        );
        settle_each(self.stations.as_mut_slice(), self.actors.as_slice());
        true
    }

    /// Makes a cycle in which nobody is held, where the sink has not yet fired for each row, and answers
    /// whether it made one. No row is wanting.
    pub fn cycle(&mut self) -> bool
        requires { CanCycle self.old }
        ensures ran { (l : Life) (k g : ℕ) → Ran l k g self.old → HoldsNobody l k → result ≡ true → Ran l (suc k) g self.new }
        ensures made { (l : Life) (k g : ℕ) → Ran l k g self.old → (result ≡ true) ↔ IsBelow l k }
        ensures kept { result ≡ false → self.new ≡ self.old }
    {
        self.cycle_held(false, false)
    }
}

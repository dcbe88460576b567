//! Whether an actor may fire, and how it fires.

ghost use Rattle.std.specs.Prelude.{◌≡◌, ◌+◌, ◌<◌, ◌^◌, true, false, length};
ghost use Rattle.lid_clock.specs.Rings.{AreThere, AllHold, OneIsEmpty, AllHaveRoom, OneIsFull, AreOldest};
ghost use Rattle.lid_clock.specs.Actors.{SeesStations, HasPlaces, SeesNoBar, SeesBar, Fires};

use crate::actor::ClockActor;
use crate::station::ClockStation;

/// Whether each of these stations holds a token.
fn all_hold(reads: &[u32], stations: &[ClockStation]) -> bool
    requires { AreThere reads.now stations.now }
    ensures yes { result ≡ true → AllHold reads.now stations.now }
    ensures no { result ≡ false → OneIsEmpty reads.now stations.now }
{
    for read in reads {
        if !stations[*read as usize].is_valid() {
            return false;
        }
    }
    true
}

/// Whether each of these stations has room.
fn all_have_room(reads: &[u32], stations: &[ClockStation]) -> bool
    requires { AreThere reads.now stations.now }
    ensures yes { result ≡ true → AllHaveRoom reads.now stations.now }
    ensures no { result ≡ false → OneIsFull reads.now stations.now }
{
    for read in reads {
        if stations[*read as usize].is_full() {
            return false;
        }
    }
    true
}

/// Writes the oldest tokens of these stations.
fn take_tokens(reads: &[u32], stations: &[ClockStation], into: &mut [u32])
    requires there { AreThere reads.now stations.now }
    requires many { length into.old ≡ length reads.now }
    ensures { AreOldest reads.now stations.now into.new }
{
    for i in 0..reads.len() {
        into[i] = stations[reads[i] as usize].oldest();
    }
}

impl ClockActor {
    /// Whether it may fire.
    pub(crate) fn may_fire(&self, stations: &[ClockStation]) -> bool
        requires { SeesStations self.now stations.now }
        ensures yes { result ≡ true → SeesNoBar self.now stations.now }
        ensures no { result ≡ false → SeesBar self.now stations.now }
    {
        self.fired < self.cap
            && all_hold(self.ins.as_slice(), stations)
            && all_have_room(self.outs.as_slice(), stations)
    }

    /// Fires.
    pub(crate) fn fire(&mut self, stations: &[ClockStation])
        requires there { AreThere self.old.ins.items stations.now }
        requires places { HasPlaces self.old }
        requires few { self.old.fired + 1 < 2 ^ 64 }
        ensures { Fires self.old stations.now self.new }
    {
        take_tokens(self.ins.as_slice(), stations, self.taken.as_mut_slice());
        self.part
            .pass(self.taken.as_slice(), self.tokens.as_mut_slice());
        self.fired += 1;
        self.went = true;
    }
}

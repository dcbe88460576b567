//! The second half of a cycle: the stations of the actors that fired settle, and who stands at their other ends wakes.

ghost use Rattle.std.specs.Prelude.{◌≡◌, ◌<◌, ◌+◌, length, Some, slice_get};
ghost use Rattle.lid_clock_flat.specs.declared.station.FlatStation.{FlatStation};
ghost use Rattle.lid_clock_flat.specs.declared.run.FlatRun.{FlatRun};
ghost use Rattle.lid_clock_flat.specs.Reads.{AreThere, AreReadOnce, AllAre};
ghost use Rattle.lid_clock_flat.specs.Ends.{CanSettleEnd, AreEndsAmong, EndSettles, EndsSettle, SettledTo, HasFired, HaveAllDecided};

use crate::flags::next_set;
use crate::run::FlatRun;
use crate::stations::FlatStations;
use lid_clock::runs_go_by_rules;

/// A station loses its oldest token, or else gains the one in its free place; and who stands at its other end wakes.
fn settle_end(stations: &mut FlatStations, station: usize, loses: bool, awake: &mut Vec<bool>)
    requires there { station < length stations.old.all.items }
    requires can { (x : FlatStation) → slice_get stations.old.all.items station ≡ Some x → CanSettleEnd loses x }
    requires among { AreEndsAmong (length awake.old.items) stations.old.all.items }
    ensures settles { EndSettles station loses stations.old.all.items stations.new.all.items awake.old.items awake.new.items }
    ensures kept { stations.new.places ≡ stations.old.places }
{
    let other = stations.all[station].other_end(loses);
    stations.all[station].settle(!loses, loses);
    awake[other as usize] = true;
}

/// Each of these stations settles so, one after the other.
fn settle_ends(reads: &[u32], loses: bool, stations: &mut FlatStations, awake: &mut Vec<bool>)
    requires there { AreThere reads.now stations.old.all.items }
    requires once { AreReadOnce reads.now }
    requires can { AllAre (CanSettleEnd loses) reads.now stations.old.all.items }
    requires among { AreEndsAmong (length awake.old.items) stations.old.all.items }
    ensures settle { EndsSettle reads.now loses (length reads.now) stations.old.all.items stations.new.all.items awake.old.items awake.new.items }
    ensures kept { stations.new.places ≡ stations.old.places }
{
    for i in 0..reads.len() {
        settle_end(stations, reads[i] as usize, loses, awake);
    }
}

impl FlatRun {
    /// The stations of a node that fired settle.
    fn settle_at_node(&mut self, node: usize)
        requires { (x : FlatRun) × HaveAllDecided x × SettledTo node x self.old × HasFired node x × (node < length x.nodes.items) }
        ensures { (x : FlatRun) → HaveAllDecided x → SettledTo node x self.old → HasFired node x → node < length x.nodes.items
            → SettledTo (node + 1) x self.new }
    {
        runs_go_by_rules();
        let actor = &self.nodes[node];
        settle_ends(actor.drained(), true, &mut self.stations, &mut self.awake);
        settle_ends(actor.filled(), false, &mut self.stations, &mut self.awake);
        self.went[node] = false;
    }

    /// The stations of a mover that fired settle. It has this number among the movers.
    fn settle_at_mover(&mut self, mover: usize)
        requires { (x : FlatRun) × HaveAllDecided x × SettledTo (length x.nodes.items + mover) x self.old
            × HasFired (length x.nodes.items + mover) x × (mover < length x.movers.items) }
        ensures { (x : FlatRun) → HaveAllDecided x → SettledTo (length x.nodes.items + mover) x self.old
            → HasFired (length x.nodes.items + mover) x → mover < length x.movers.items
            → SettledTo (length x.nodes.items + mover + 1) x self.new }
    {
        runs_go_by_rules();
        let station = self.movers[mover].station as usize;
        let actor = self.nodes.len() + mover;
        settle_end(&mut self.stations, station, true, &mut self.awake);
        settle_end(&mut self.stations, station + 1, false, &mut self.awake);
        self.went[actor] = false;
    }

    /// The stations of all actors that fired settle.
    pub(crate) fn settle_all(&mut self)
        requires { HaveAllDecided self.old }
        ensures { SettledTo (length self.old.went.items) self.old self.new }
    {
        let nodes = self.nodes.len();
        let mut actor = next_set(self.went.as_slice(), 0);
        while actor < self.went.len() {
            if actor < nodes {
                self.settle_at_node(actor);
            } else {
                self.settle_at_mover(actor - nodes);
            }
            actor = next_set(self.went.as_slice(), actor + 1);
        }
    }
}

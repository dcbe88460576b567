//! The decisions of nodes.

ghost use Rattle.std.specs.Prelude.{◌≡◌, ℕ, ◌+◌, ◌<◌, ◌^◌, Bool, true, false, length};
ghost use Rattle.lid_clock.specs.Actors.{HasPlaces};
ghost use Rattle.lid_clock.specs.Lives.{Life};
ghost use Rattle.lid_clock_flat.specs.Rings.{RingsAreApart};
ghost use Rattle.lid_clock_flat.specs.Reads.{AreThere, AreReadOnce, AllHaveRoom};
ghost use Rattle.lid_clock_flat.specs.Nodes.{SeesStations, SeesNoBar, SeesBar, IsHanded, NodeFires};
ghost use Rattle.lid_clock_flat.specs.Flats.{NodeBegins, NodeDecided};

use crate::reads::{all_have_room, all_hold, offer_all};
use crate::station::FlatStation;
use crate::stations::FlatStations;
use lid_clock::{ClockActor, runs_go_by_rules};

/// Whether a node may fire.
fn may_fire(node: &ClockActor, stations: &[FlatStation]) -> bool
    requires { SeesStations node.now stations.now }
    ensures yes { result ≡ true → SeesNoBar node.now stations.now }
    ensures no { result ≡ false → SeesBar node.now stations.now }
{
    node.is_below_cap()
        && all_hold(node.drained(), stations)
        && all_have_room(node.filled(), stations)
}

/// Hands a node the oldest tokens of the stations that it drains.
fn hand_tokens(node: &mut ClockActor, stations: &FlatStations)
    requires there { AreThere node.old.ins.items stations.now.all.items }
    requires many { length node.old.taken.items ≡ length node.old.ins.items }
    requires apart { RingsAreApart stations.now.all.items stations.now.places.items }
    ensures { IsHanded (length node.old.ins.items) node.old stations.now node.new }
{
    for i in 0..node.drained().len() {
        let token = stations.oldest(node.drained()[i] as usize);
        node.hand(i, token);
    }
}

/// A node fires.
fn fire_node(node: &mut ClockActor, stations: &mut FlatStations)
    requires there { SeesStations node.old stations.old.all.items }
    requires once { AreReadOnce node.old.outs.items }
    requires room { AllHaveRoom node.old.outs.items stations.old.all.items }
    requires apart { RingsAreApart stations.old.all.items stations.old.places.items }
    requires places { HasPlaces node.old }
    requires few { node.old.fired + 1 < 2 ^ 64 }
    ensures { NodeFires node.old stations.old node.new stations.new }
{
    hand_tokens(node, stations);
    node.go();
    offer_all(node.filled(), node.put(), stations);
}

/// A node decides, as a cycle begins, and fires where it may and is not held. Answers whether it fired.
pub(crate) fn decide_node(node: &mut ClockActor, stations: &mut FlatStations, held: bool) -> bool
    requires { (l : Life) × (k : ℕ) × (g : ℕ) × (v : ℕ) × NodeBegins l k g v held node.old stations.old }
    ensures { (l : Life) (k g v : ℕ) → NodeBegins l k g v held node.old stations.old → NodeDecided l k g v held result node.new stations.old stations.new }
{
    runs_go_by_rules();
    if held || !may_fire(node, stations.all.as_slice()) {
        node.rest();
        return false;
    }
    fire_node(node, stations);
    true
}

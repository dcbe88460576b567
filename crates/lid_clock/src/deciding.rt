//! The decisions of actors.

ghost use Rattle.lid_clock.specs.States.{CanDecide, Decides};

use crate::actor::ClockActor;
use crate::rules::runs_go_by_rules;
use crate::station::ClockStation;

impl ClockActor {
    /// Decides, as a cycle begins, and fires where the actor may and is not held. The actor and the
    /// stations are those of one run as the cycle begins, and no row is wanting. Held may be the source
    /// and the sink. The actor keeps the tokens that it puts until its next decision.
    pub fn decide(&mut self, stations: &[ClockStation], held: bool)
        requires { CanDecide self.old stations.now }
        ensures { Decides self.old stations.now held self.new }
    {
        runs_go_by_rules();
        if !held && self.may_fire(stations) {
            self.fire(stations);
        } else {
            self.went = false;
        }
    }
}

//! How stations settle.

ghost use Rattle.lid_clock.specs.States.{CanSettle, Gains, Settles};
ghost use Rattle.lid_clock.specs.Cycles.{EachCanSettle, EachSettles};

use crate::actor::ClockActor;
use crate::rules::runs_go_by_rules;
use crate::station::ClockStation;

impl ClockStation {
    /// Gains its filler's token where that fired.
    fn gain(&mut self, actors: &[ClockActor])
        requires { CanSettle self.old actors.now }
        ensures { Gains self.old actors.now self.new }
    {
        runs_go_by_rules();
        let filler = &actors[self.filler as usize];
        if filler.went {
            self.accept(filler.tokens[self.slot as usize]);
        }
    }

    /// Settles, after all actors have decided: it gains its filler's token where that fired, and loses
    /// its oldest token where its drainer fired. The station is as the cycle began, and the actors are
    /// all those of the same run, each after its decision.
    pub fn settle(&mut self, actors: &[ClockActor])
        requires { CanSettle self.old actors.now }
        ensures { Settles self.old actors.now self.new }
    {
        runs_go_by_rules();
        self.gain(actors);
        let drainer = &actors[self.drainer as usize];
        if drainer.went {
            self.release();
        }
    }
}

/// Each of these stations settles, after all actors have decided.
pub fn settle_each(stations: &mut [ClockStation], actors: &[ClockActor])
    requires { EachCanSettle stations.old actors.now }
    ensures { EachSettles stations.old actors.now stations.new }
{
    for s in 0..stations.len() {
        stations[s].settle(actors);
    }
}

//! The sweeps after the parallel phase.

ghost use Rattle.std.specs.Prelude.{◌≡◌, ℕ};
ghost use Rattle.lid_walk_machine.specs.Setups.{plan};
ghost use Rattle.lid_shell_laws.specs.Setups.{Setup};
ghost use Rattle.lid_walk_machine.specs.Machine.{State};
ghost use Rattle.lid_walk_machine.specs.Laws.{AllRest};
ghost use Rattle.lid_walk.specs.Walks.{Walks, IsAtRest};
ghost use Rattle.lid_free.specs.Sweeps.{HasSettled};

use lid_walk::Walk;

/// How many sweeps were made, and how often actors fired in them.
#[derive(Clone, Copy)]
pub(crate) struct Sweeps {
    pub(crate) count: u64,
    pub(crate) fired: u64,
}

/// Makes sweeps until every actor is at its cap. All are at rest.
pub(crate) fn settle(walk: &mut Walk<'_>) -> Sweeps
    requires { IsAtRest walk.old }
    ensures { (m : Setup) (st : State) → Walks m st walk.old → AllRest (plan m) st → HasSettled m st result walk.new }
{
    let mut sweeps = Sweeps { count: 0, fired: 0 };
    while !walk.settled() {
        sweeps.fired += walk.sweep();
        sweeps.count += 1;
    }
    sweeps
}

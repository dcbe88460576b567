//! Laws of the interleaving machine.

ghost use Rattle.lid_walk_machine.specs.Laws.{RunsBeginSound, StepsKeepSound, TurnsEndAtRest, SweepsEndAtRest, SweepsKeepUp, SweepsKeepUpWithCycles, SweepsSettle, IdleSweepsAreSettled};

/// Whatever the order of steps, at each station the tokens taken are the first of those put, these are the first
/// of the station's stream, and it holds at most its capacity; and what an actor has found stays until it is used.
pub fn states_keep_prefixes()
    ensures begin { RunsBeginSound }
    ensures steps { StepsKeepSound }
{}

/// A turn leaves its actor at rest, with at most one firing more, and the others as they were.
pub fn turns_end_at_rest()
    ensures turns { TurnsEndAtRest }
    ensures sweeps { SweepsEndAtRest }
{}

/// After k sweeps from any state at rest each actor has fired at least as often as after k cycles of the clocked
/// run in which nobody is held. So the state is settled after as many sweeps as that run needs cycles for all
/// actors, and a sweep of a state that is not settled fires at least once.
pub fn sweeps_keep_up()
    ensures one { SweepsKeepUp }
    ensures many { SweepsKeepUpWithCycles }
    ensures settle { SweepsSettle }
    ensures idle { IdleSweepsAreSettled }
{}

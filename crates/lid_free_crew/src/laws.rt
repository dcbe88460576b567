//! Laws of rounds.

ghost use Rattle.lid_free_crew.specs.Laws.{RoundsOfAllAreSweeps};

/// Rounds of all actors of a setup, in the order of their numbers, are as many sweeps of the interleaving machine.
pub fn rounds_of_all_are_sweeps()
    ensures { RoundsOfAllAreSweeps }
{}

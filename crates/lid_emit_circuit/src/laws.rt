//! Laws of wrapped systems. The functions here do nothing; their contracts are laws for all plans.

ghost use Rattle.lid_emit_circuit.specs.Laws.{LevelsShowCounts, ActorsFireByTheirWires, CircuitsTellStops, CircuitsTellRows, OutputsAreQuiet, CircuitsCarryTokens, CircuitsGiveRows};

/// In each cycle levels show how many tokens stations hold, and the wires of actors who fires, by the
/// firing counts of the marked graph.
pub fn circuits_follow_counts()
    ensures levels { LevelsShowCounts }
    ensures fires { ActorsFireByTheirWires }
{}

/// A circuit tells its environment to stop exactly where some station that the source fills is full, and
/// offers it a row exactly where each station that the sink drains holds a token; else its data outputs
/// are 0.
pub fn circuits_tell_their_environment()
    ensures stops { CircuitsTellStops }
    ensures rows { CircuitsTellRows }
    ensures quiet { OutputsAreQuiet }
{}

/// Stations hold the tokens of what is carried, shells have its states, and where the sink fires the
/// outputs show the row that it takes.
pub fn circuits_carry_tokens()
    ensures tokens { CircuitsCarryTokens }
    ensures rows { CircuitsGiveRows }
{}

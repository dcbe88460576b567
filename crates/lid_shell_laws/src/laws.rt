//! Laws of runs.

ghost use Rattle.lid_shell_laws.specs.Laws.{ActorsFireWhereTheyMay, ActorsRestWhereTheyMayNot, StationsHoldFew, CapsFit, RunsEnd, RunsEndWithinLag, NodesDrainTheirChannels, NodesFillTheirChannels, StationsOfNodesStartWithAToken, MoversMoveTokensOn};

/// In a cycle an actor fires once exactly where it is not held, is below its cap, finds a token in each
/// station that it drains, and room in each that it fills. After each cycle a station holds at least none
/// and at most its capacity, and was put at most a token for each row.
pub fn actors_fire_by_the_rule()
    ensures fires { ActorsFireWhereTheyMay }
    ensures rests { ActorsRestWhereTheyMayNot }
    ensures few { StationsHoldFew }
{}

/// The stations that a node drains pass, in order, the tokens of the channels that lead to it, and those
/// that it fills the tokens of the channels that come from it. These start with a token, the others with none.
pub fn nodes_pass_the_tokens_of_channels()
    ensures drained { NodesDrainTheirChannels }
    ensures filled { NodesFillTheirChannels }
    ensures starts { StationsOfNodesStartWithAToken }
{}

/// A mover drains one station and fills the next one on the same channel.
pub fn movers_move_tokens_on()
    ensures { MoversMoveTokensOn }
{}

/// Where nobody is held, a run ends: the sink has fired once for each row after at most a cycle for each
/// actor and each row, and within `(q*N + lag)/p` cycles, rounded up, where p/q is the ratio of the sink's
/// component and lag the sink's.
pub fn runs_end()
    ensures caps { CapsFit }
    ensures most { RunsEnd }
    ensures lag { RunsEndWithinLag }
{}

//! What firing counts, walks and tokens have to do with each other. Each function here does nothing; its
//! contract is a law for all graphs.

ghost use Rattle.lid_graph_laws.specs.Laws.{CountsNeverFall, CountsRiseByOne, CountsMeetCaps, EdgesAllow, HoldsDelay, HoldsDelayByTheirCycles, WalksKeepBack, LagBoundsFirings, LagBoundsCycles, TokensMakeRatios, TokensReachCaps, NumbersShowTokens, CapsCutCounts};

/// A count never falls, rises by at most one in a cycle, stays at or below its cap, and is at most what
/// each edge allows. With caps that fit the edges it is the lesser of the cap and of the count that has
/// no cap.
pub fn counts_rise()
    ensures falls { CountsNeverFall }
    ensures one { CountsRiseByOne }
    ensures caps { CountsMeetCaps }
    ensures edges { EdgesAllow }
    ensures cut { CapsCutCounts }
{}

/// Holding delays, by no more cycles than hold.
pub fn holds_delay()
    ensures most { HoldsDelay }
    ensures least { HoldsDelayByTheirCycles }
{}

/// A transition that is below its cap after k cycles is kept back by a walk of k edges, whose tokens are
/// its count. So where `p*edges - q*tokens` of no walk that ends there is above a lag, it has fired at
/// least `(p*k - lag)/q` times.
pub fn lags_bound_firings()
    ensures walks { WalksKeepBack }
    ensures counts { LagBoundsFirings }
{}

/// Where p is not 0, a transition with such a lag has first fired as often as its cap after at most
/// `(q*cap + lag)/p` cycles, rounded up.
pub fn caps_are_reached()
    ensures { LagBoundsCycles }
{}

/// Where each closed walk has a token, no ratio is 0, and each transition comes to its cap. Each closed
/// walk has one where there are numbers that rise along each edge without tokens.
pub fn tokens_keep_graphs_alive()
    ensures ratios { TokensMakeRatios }
    ensures caps { TokensReachCaps }
    ensures numbers { NumbersShowTokens }
{}

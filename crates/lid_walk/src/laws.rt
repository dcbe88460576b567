//! Laws of walks.

ghost use Rattle.lid_walk.specs.Laws.{StationsHoldPrefixes, RunsReachCaps, SweepsSettleWalks};

/// After whatever steps, the tokens taken from a station are the first of those put in it, these are the first of its
/// stream, and it holds those between, at most as many as its capacity.
pub fn stations_hold_prefixes()
    ensures { StationsHoldPrefixes }
{}

/// The clocked run in which nobody is held brings each actor to its cap, in at most a cycle for each actor and each
/// row. So as many sweeps settle a walk in which all actors are at rest.
pub fn sweeps_settle_walks()
    ensures runs { RunsReachCaps }
    ensures walks { SweepsSettleWalks }
{}

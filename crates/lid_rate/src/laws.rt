//! What follows from lags. Each function here does nothing; its contract is a law for all graphs.

ghost use Rattle.lid_rate.specs.Laws.{LagsMeetRule, RuleBoundsFirings};

/// Along an edge from u to v with m tokens the lags have `lag(v) + q*m >= lag(u) + p`. Where numbers
/// have this along every edge of a component, a transition of it that is below its cap after k cycles
/// has fired at least `(p*k - lag)/q` times.
pub fn lag_rule_bounds_firings()
    ensures lags { LagsMeetRule }
    ensures firings { RuleBoundsFirings }
{}

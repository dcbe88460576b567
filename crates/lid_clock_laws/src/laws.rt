//! That there are bounds. Each function here does nothing; its contract is a law for all systems and placements.

ghost use Rattle.lid_clock_laws.specs.Laws.{MarkingsHaveRatiosAndLags, RunsHaveBounds};

/// In the marked graph of a system with its stations each component has a ratio p/q, above 0 and at most 1, and each
/// of its actors a lag.
pub fn markings_have_ratios_and_lags()
    ensures { MarkingsHaveRatiosAndLags }
{}

/// A run that ends within `(q*N + lag)/p` cycles, rounded up, for all p, q and lag that are the ratio of the sink's
/// component and the sink's lag, does so for some: they are there.
pub fn runs_have_bounds()
    ensures { RunsHaveBounds }
{}

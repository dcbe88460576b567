//! That there are ratios and lags. Each function here does nothing; its contract is a law for all graphs.

ghost use Rattle.lid_graph_ratio_laws.specs.Laws.{ComponentsHaveRatios, RatiosAreUnique, LagsAreUnique};

/// In a paired graph each component has a ratio p/q, of at most 1 and with at most as many edges below the line as
/// there are transitions; and each of its transitions has a lag, of at most p for each other transition.
pub fn components_have_ratios()
    ensures { ComponentsHaveRatios }
{}

/// A transition has one ratio, and with it one lag.
pub fn ratios_are_unique()
    ensures ratios { RatiosAreUnique }
    ensures lags { LagsAreUnique }
{}

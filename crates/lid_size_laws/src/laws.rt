//! Laws of marked graphs that differ in the capacities of their stations alone. Each function here does
//! nothing; its contract is a law for all graphs.

ghost use Rattle.lid_size_laws.specs.Laws.{TokensRaiseRatios, NoRatioIsAboveForward, ForwardRatiosStay, ForwardRatiosSpread, ForwardRatiosAreKept, ForwardRatiosAreCompared, GreaterCapacitiesKeep};

/// More tokens never lower a ratio.
pub fn tokens_raise_ratios()
    ensures { TokensRaiseRatios }
{}

/// The forward ratio of a component is the least ratio of its closed walks on edges forth and later edges
/// alone. It is the same for all capacities, and no capacities take the ratio of the component above it. A
/// component has it exactly where none of its closed walks has a lower one.
pub fn forward_ratios_bound()
    ensures most { NoRatioIsAboveForward }
    ensures stay { ForwardRatiosStay }
    ensures spread { ForwardRatiosSpread }
    ensures kept { ForwardRatiosAreKept }
    ensures compared { ForwardRatiosAreCompared }
{}

/// A component that has its forward ratio has it with greater capacities too.
pub fn greater_capacities_keep()
    ensures { GreaterCapacitiesKeep }
{}

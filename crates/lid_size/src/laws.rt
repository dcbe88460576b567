//! Laws of capacities that reach. Each function here does nothing; its contract is a law for all systems and
//! relay stations.

ghost use Rattle.lid_size.specs.Laws.{GreaterCapacitiesReach, NoPlaceIsSpare};

/// Where each component has its forward ratio with some capacities, it has it with greater ones.
pub fn greater_capacities_reach()
    ensures { GreaterCapacitiesReach }
{}

/// Of the first capacities that reach none above 2 can be less by one, whatever the others are: with one
/// place less at that station alone some component has not its forward ratio.
pub fn no_place_is_spare()
    ensures { NoPlaceIsSpare }
{}

//! Laws of where stations stand, and of the edges of markings. Each function here does nothing; its
//! contract is a law for all systems and placements.

ghost use Rattle.lid_stations.specs.Laws.{EachStationHasASpot, EachSpotHasAStation, StationsStandBetweenActors, MoversCarryOneStationOn, StationsHaveTwoEdges, ActorsHaveSelfEdges, MarkingsHaveNoOtherEdges, MarkingsAreRateable, MarkingsHaveTokens, SomePlacementFits};

/// Each station has a channel and a place there, and each place of a channel has one station. Stations
/// are numbered by channel, then by place.
pub fn stations_stand_in_order()
    ensures spots { EachStationHasASpot }
    ensures stations { EachSpotHasAStation }
{}

/// Each station is filled by an actor that is not the sink, and drained by one that is not the source.
pub fn stations_stand_between_actors()
    ensures { StationsStandBetweenActors }
{}

/// Each actor that is no node drains one station and fills the next one, which stands on the same
/// channel, and no other stations.
pub fn movers_carry_one_station_on()
    ensures { MoversCarryOneStationOn }
{}

/// Edges 2s and 2s + 1 of a marking are those along station s and back, and then each actor has an edge
/// to itself, in order.
pub fn stations_have_two_edges()
    ensures two { StationsHaveTwoEdges }
    ensures selves { ActorsHaveSelfEdges }
    ensures others { MarkingsHaveNoOtherEdges }
{}

/// Markings are paired, within the limits of graphs whose ratios are found, and each closed walk has a
/// token.
pub fn markings_are_alive()
    ensures rateable { MarkingsAreRateable }
    ensures tokens { MarkingsHaveTokens }
{}

/// Each system has a placement that fits: the one without relay stations.
pub fn some_placement_fits()
    ensures { SomePlacementFits }
{}

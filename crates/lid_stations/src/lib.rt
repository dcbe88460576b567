//! Placements of relay stations on the channels of a system, and the marked graph of a placement.
#![tactic(auto)]

mod ends;
mod laws;
mod marked_graph;
mod placed;
mod placement;

pub use ends::{drainer, filler};
pub use laws::{
    markings_are_alive, movers_carry_one_station_on, some_placement_fits, stations_have_two_edges,
    stations_stand_between_actors, stations_stand_in_order,
};
pub use marked_graph::marking;
pub use placed::Placed;
pub use placement::{Placement, none};

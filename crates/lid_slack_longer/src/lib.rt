//! Placements with further relay stations on a channel: how they are made, and what they do to the ratio of
//! the channel's component.
#![tactic(auto)]

mod further;
mod labels;
mod laws;

pub use further::{last_station, longer, room, stations_through};
pub use labels::{Chain, are_labels, is_way};
pub use laws::{fewer_keep, further_stations_fit, labels_keep, none_are_none, ways_close};

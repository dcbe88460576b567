//! A board of stations that threads step without a lock.
#![tactic(auto)]

mod attended;
mod board;
mod calls;
mod closing;
mod course;
mod halves;
mod hand;
mod key;
mod laws;
mod parts;
mod starts;
mod steps;
mod view;

pub use attended::Attended;
pub use board::Board;
pub use course::Course;
pub use hand::Hand;
pub use laws::{lent_hands_come_back, stations_keep_prefixes};
pub use steps::Order;
pub use view::{EndFacts, HandView};

//! The clocked run: all stations and actors in step, a cycle at a time, over rows that are given one by one or are held.
#![tactic(auto)]

mod actor;
mod building;
mod clocked;
mod cycle;
mod deciding;
mod firing;
mod joining;
mod part;
mod passing;
mod places;
mod readying;
mod ring;
mod rows;
mod rules;
mod settling;
mod starting;
mod station;
mod stream;
mod telling;

pub use actor::ClockActor;
pub use clocked::Clocked;
pub use rules::runs_go_by_rules;
pub use settling::settle_each;
pub use station::ClockStation;
pub use stream::ClockStream;

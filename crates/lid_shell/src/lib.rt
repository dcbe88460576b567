//! Actors over stations, whoever keeps the tokens: the source, the shells, the sink, and the movers between stations.
#![tactic(auto)]

mod actor;
mod building;
mod desk;
mod finishing;
mod looking;
mod moving;
mod part;
mod passing;
mod rules;
mod turn;

pub use actor::Actor;
pub use rules::actors_go_by_rules;
pub use turn::TurnEnd;

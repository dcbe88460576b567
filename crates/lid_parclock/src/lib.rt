//! The clocked run on several workers: in each cycle they first decide for all actors, and then settle all
//! stations.
#![tactic(auto)]

mod cycle;
mod deciding;
mod run;
mod settling;
mod shares;

pub use cycle::cycle_on;
pub use run::run_on;

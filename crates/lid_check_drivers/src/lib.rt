//! Designs whose models pass the conditions on models: each net of a reached model has one driver, and
//! what drives a column is told by its model.
#![tactic(auto)]

mod judged;
mod laws;

pub use judged::{Judged, judge};
pub use laws::accepted_models_drive_each_net_once;

//! The models of a design, judged by all the conditions on models in order; and what is counted over all instances of
//! models, by recurrence on the models.
#![tactic(auto)]

mod copies;
mod counts;
mod late;
mod limits;
mod models;
mod sums;

pub use counts::{Measure, count_all, count_each, count_model};
pub use limits::{Latches, count_latches};
pub use models::check_models;
pub use sums::counts_are_sums;

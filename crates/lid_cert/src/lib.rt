//! Certificates of the throughput of a marked graph: what they show, and how they are checked.
#![tactic(auto)]

mod cert;
mod checking;
mod laws;
mod owners;
mod places;
mod rules;

pub use cert::{Cert, Part};
pub use checking::{check, check_by_owners};
pub use laws::{
    caps_are_reached, each_is_shown, lags_bound_firings, leads_bound_firings, ratio_is_shown,
};
pub use places::{lag_at, lead_of, part_with, place_of};

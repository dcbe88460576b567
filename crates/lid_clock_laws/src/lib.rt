//! Laws of the bound on clocked runs: that there is one for every system with its stations, without a search.
#![tactic(auto)]

mod laws;

pub use laws::{markings_have_ratios_and_lags, runs_have_bounds};

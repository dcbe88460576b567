//! Laws of ratios: each component of a paired graph has one, and each of its transitions a lag, without memory for a
//! search; and they are unique.
#![tactic(auto)]

mod laws;

pub use laws::{components_have_ratios, ratios_are_unique};

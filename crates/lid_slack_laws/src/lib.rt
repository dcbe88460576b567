//! Laws of slack: each channel of a system with its stations has one, and no second, without memory for a search; and
//! there is a text that tells those of all channels.
#![tactic(auto)]

mod laws;

pub use laws::{channels_have_slacks, placements_have_slack_texts, slacks_are_unique};

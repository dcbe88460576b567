//! Programs by level and width: steps of one width that are run one after the other are run by one loop, over arrays of one
//! thing each.
#![tactic(auto)]

mod building;
mod group;
mod levels;
mod ordering;
mod packing;
mod rows;
mod settling;

pub use building::by_width;
pub use group::{ByWidth, Group};
pub use ordering::{as_laid, by_level};
pub use settling::settle_by_width;

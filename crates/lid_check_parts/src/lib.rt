//! The columns of each pearl of a design, and flat parts: consecutive columns of a network, with their nets numbered from
//! 0 on.
#![tactic(auto)]

mod cells;
mod flat;
mod inner;
mod part;
mod parts;

pub use cells::buffer;
pub use flat::{flatten, numbers_from};
pub use part::PearlPart;
pub use parts::find_parts;

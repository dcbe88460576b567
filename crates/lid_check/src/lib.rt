//! The test that accepts designs: which netlists are well made, and what is told of the others.
#![tactic(auto)]

mod checked;
mod judging;
mod laws;
mod network;

pub use checked::{Checked, check};
pub use laws::acceptance_is_one;
pub use lid_check_parts::PearlPart;
pub use lid_check_rules::CheckFault;
pub use network::Network;

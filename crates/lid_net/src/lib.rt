//! The system of an accepted design: its nodes, and for each of their inputs the port or the constant that it is led back
//! to.
#![tactic(auto)]

mod assembly;
mod collect;
mod leading;
mod marks;
mod nodes;
mod origin;
mod pearls;
mod ports;
mod sharing;
mod step;

pub use assembly::{build, find_channels};
pub use leading::{lead_back, origin_of};
pub use lid_net_channels::NetFault;
pub use origin::Origin;
pub use step::BackStep;

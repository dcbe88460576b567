//! Channels: the ports that nodes read of each other, cut into pieces of 31, and the bit of a channel
//! that each port has in them.
#![tactic(auto)]

mod bits;
mod fault;
mod pieces;
mod reads;

pub use bits::{find_bit, name_bits};
pub use fault::NetFault;
pub use pieces::cut_channels;
pub use reads::{Read, put_in_order};

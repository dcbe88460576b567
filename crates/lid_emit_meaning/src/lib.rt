//! What an emitted design is, the names of the ports of its environment, and why there is none.
#![tactic(auto)]

mod fault;
mod ports;

pub use fault::EmitFault;
pub use ports::{BLOCK_NAME, OFFER_NAME, STOP_NAME, VALID_NAME};

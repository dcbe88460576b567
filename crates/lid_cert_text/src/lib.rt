//! The text of a certificate, read and printed.
#![tactic(auto)]

mod building;
mod fault;
mod laws;
mod ranges;
mod reader;
mod stage;
mod words;
mod writer;

pub use fault::CertFault;
pub use laws::{printed_is_read_back, printed_is_short, room_is_small};
pub use reader::read_cert;
pub use writer::print_cert;

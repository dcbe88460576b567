//! The names of the ports that an emitted design has for its environment.

/// The input that tells that a row is offered.
pub const OFFER_NAME: &[u8] = b"li_in_valid";
/// The input that tells that no row is taken.
pub const BLOCK_NAME: &[u8] = b"li_out_stop";
/// The output that tells that a row is offered.
pub const VALID_NAME: &[u8] = b"li_out_valid";
/// The output that tells that no row is taken.
pub const STOP_NAME: &[u8] = b"li_in_stop";

//! Systems in shells as networks of covers and latches: what each wire carries, what drives it, and what is read.
#![tactic(auto)]

mod laws;
mod wiring;

pub use laws::{circuits_carry_tokens, circuits_follow_counts, circuits_tell_their_environment};
pub use wiring::wires_have_cells;

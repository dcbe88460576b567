//! Interleavings: all actors of a system over one board, one step of one actor after another.
#![tactic(auto)]

mod actors;
mod ends;
mod firsts;
mod laws;
mod movers;
mod nodes;
mod starting;
mod tokens;
mod walk;

pub use actors::all_actors;
pub use firsts::first_tokens;
pub use laws::{stations_hold_prefixes, sweeps_settle_walks};
pub use walk::Walk;

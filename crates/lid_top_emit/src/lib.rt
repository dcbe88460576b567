//! The command `emit`: the wrapped design of a netlist with its stations, as a netlist.
#![tactic(auto)]

mod emitting;

pub use emitting::emit_text;

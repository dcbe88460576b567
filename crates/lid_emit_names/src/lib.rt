//! Laws of names: networks of wires as designs, in which each wire has a name and one cell drives it.
#![tactic(auto)]

mod laws;
mod wires;

pub use laws::named_designs_are_accepted;
pub use wires::wires_have_names;

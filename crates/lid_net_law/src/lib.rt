//! The law of systems and designs: the strict tables of a design, seen at the ports and nets of its system, are the tables
//! of the system.
#![tactic(auto)]

mod laws;

pub use laws::{designs_and_systems_agree, pearls_stand_for_columns};

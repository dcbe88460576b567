//! A system with its stations as one network of covers and latches.
#![tactic(auto)]

mod laws;

pub use laws::wrapped_systems_run;

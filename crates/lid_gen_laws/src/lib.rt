//! Laws of generated designs: they are accepted, they can be written, and runs of them fit their systems.
#![tactic(auto)]

mod laws;

pub use laws::{
    generated_designs_are_accepted, generated_designs_are_writable, generated_runs_fit,
    generated_systems_are_small,
};

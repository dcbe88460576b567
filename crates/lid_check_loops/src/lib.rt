//! Why the columns of a design are refused: closed walks, and outputs of pearls that depend on inputs.
#![tactic(auto)]

mod flaws;
mod outputs;
mod pearls;

pub use flaws::{Flaw, Verdict, find_flaw, tell_flaw};
pub use outputs::Lead;
pub use pearls::find_inputs;

//! The conditions on the models of a design, each with the place that it tells.
#![tactic(auto)]

mod duplicates;
mod edges;
mod fault;
mod instances;
mod names;
mod root;
mod told;
mod unknown;

pub use duplicates::find_duplicate;
pub use edges::find_mixed_edges;
pub use fault::CheckFault;
pub use instances::find_by_rules;
pub use names::find_by_names;
pub use root::{find_root_logic, find_two_clocks, passes_on};
pub use told::{InstFault, NameFault, Told};
pub use unknown::find_unknown_model;

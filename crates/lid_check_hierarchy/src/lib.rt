//! How the models of a design use each other: which are reached, in what order they can be worked
//! through, which of their names are clock names, and which nets they have.
#![tactic(auto)]

mod clocks;
mod formed;
mod inputs;
mod nets;
mod survey;
mod uses;

pub use formed::is_well_formed;
pub use inputs::NameList;
pub use survey::{Survey, SurveyFault, survey_models};
pub use uses::{Uses, find_uses};

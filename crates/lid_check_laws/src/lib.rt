//! Laws of acceptance: plain facts about the lists of its models by which a design is accepted, and what acceptance
//! bounds in the flat parts of pearls.
#![tactic(auto)]

mod laws;
mod sizes;

pub use laws::{
    models_are_found_by_name, one_model_is_accepted, roots_with_instances_are_accepted,
    roots_with_instances_are_counted, some_designs_are_plain,
};
pub use sizes::flat_parts_are_small;

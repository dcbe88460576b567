//! Sets and lists of borrowed names: a set in the order in which the names first came, a list in
//! the order in which a model gives them.
#![tactic(auto)]

mod hashers;
mod held;
mod listing;
mod set;

pub use listing::{
    list_formals, list_occurrences, model_at, out_of, push_name, push_names, push_outs, push_ports,
    push_reads, set_of, tally_of,
};
pub use set::{NameSet, NameTally, find_twice, tally_names};

//! Laws of runs: what all runs of a system with its stations share, for all systems and placements.
#![tactic(auto)]

mod laws;

pub use laws::{
    actors_fire_by_the_rule, movers_move_tokens_on, nodes_pass_the_tokens_of_channels, runs_end,
};

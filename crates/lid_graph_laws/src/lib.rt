//! Laws of firing counts: how far the transitions of a marked graph get, without a certificate in hand.
#![tactic(auto)]

mod laws;

pub use laws::{
    caps_are_reached, counts_rise, holds_delay, lags_bound_firings, tokens_keep_graphs_alive,
};

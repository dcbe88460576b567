//! Laws of certificates: each graph that the search takes has one, and so has the marking of every system with its
//! stations, without memory for a search; and it can be written as a text.
#![tactic(auto)]

mod laws;

pub use laws::{
    markings_have_certificates, markings_have_rate_texts, rateable_graphs_have_certificates,
};

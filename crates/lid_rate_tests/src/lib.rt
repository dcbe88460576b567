//! Tests of graphs, orders, certificates and the search for them, over the public calls of their
//! crates.
#![tactic(auto)]

#[cfg(test)]
mod tests;

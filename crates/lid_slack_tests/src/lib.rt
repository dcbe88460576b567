//! Tests of slack. What is expected was worked out by hand from the ratios of the systems' closed walks.
#![tactic(auto)]

#[cfg(test)]
mod tests;

//! Tests of placements, of their texts and of their marked graphs. What is expected was worked out by hand from the rules
//! of stations and edges.
#![tactic(auto)]

#[cfg(test)]
mod rings;
#[cfg(test)]
mod tests;

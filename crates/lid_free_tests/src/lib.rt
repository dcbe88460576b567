//! Tests of free runs. What is expected was worked out by hand from the rules of the interleaving machine.
#![tactic(auto)]

#[cfg(test)]
mod runs;

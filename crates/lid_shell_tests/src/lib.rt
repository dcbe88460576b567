//! Tests of actors over boards, and of walks. What is expected was worked out by hand from the rules of the interleaving
//! machine.
#![tactic(auto)]

#[cfg(test)]
mod movers;
#[cfg(test)]
mod walks;

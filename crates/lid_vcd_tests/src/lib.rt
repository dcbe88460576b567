//! Tests of dumps over their public calls.
#![tactic(auto)]

#[cfg(test)]
mod others;
#[cfg(test)]
mod tests;

//! Tests of sizing, over the systems of netlists.
#![tactic(auto)]

#[cfg(test)]
mod tests;

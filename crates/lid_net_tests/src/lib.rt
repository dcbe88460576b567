//! Tests of systems of accepted designs: they are run row by row, and give the rows of strict runs.
#![tactic(auto)]

#[cfg(test)]
mod runs;
#[cfg(test)]
mod wide;

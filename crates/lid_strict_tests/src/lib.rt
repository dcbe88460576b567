//! Tests of `lid_strict` and its rooms.
#![tactic(auto)]

#[cfg(test)]
mod tables;
#[cfg(test)]
mod widths;

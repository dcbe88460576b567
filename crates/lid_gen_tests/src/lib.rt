//! Tests of generated designs and runs, over their public calls.
#![tactic(auto)]

#[cfg(test)]
mod designs;
#[cfg(test)]
mod runs;

//! Tests of the reader and the writer of BLIF texts, over their public calls.
#![tactic(auto)]

#[cfg(test)]
mod faults;
#[cfg(test)]
mod texts;

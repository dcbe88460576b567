//! Tests of the words of a command line, over the public call.
#![tactic(auto)]

#[cfg(test)]
mod words;

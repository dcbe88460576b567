//! Tests of what every part stands on, of lines and of the texts of rows, over their public calls.
#![tactic(auto)]

#[cfg(test)]
mod tests;

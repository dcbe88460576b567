//! Tests of stations, on one thread and shared by threads, over the public calls of their crates.
#![tactic(auto)]

#[cfg(test)]
mod board;
#[cfg(test)]
mod stations;

//! The tests, by what they test.

mod cert;
mod designs;
mod graph;
mod guesses;
mod large;
mod order;
mod rate;
mod throughput;
mod walks;

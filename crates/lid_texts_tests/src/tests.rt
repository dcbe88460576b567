//! The tests, by what they test.

mod base;
mod devices;
mod fetches;
mod numbers;
mod packed;
mod pieces;
mod reports;
mod rows;
mod scan;
mod stalls;

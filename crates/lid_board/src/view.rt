//! What is known at the ends of stations. It exists for contracts alone: no value of these types is
//! ever made.

use std::collections::LinkedList;

/// What is known at one end of a station.
pub struct EndFacts {
    /// The tokens of the station, of which `passed` have passed here: the first ones.
    pub stream: LinkedList<u32>,
    /// How many tokens the station started with.
    pub start: u64,
    /// The capacity of the station.
    pub cap: u32,
    /// How many tokens have passed. At a filled end the start token is counted.
    pub passed: u64,
    /// Whether a token or room was seen and not used.
    pub mark: bool,
    /// How many looks found none.
    pub misses: u64,
}

/// What one hand knows: what is known at its ends, by their numbers, nothing where another has it; and at which ends it
/// made its steps, the latest first.
pub struct HandView {
    pub ends: LinkedList<Option<EndFacts>>,
    pub steps: LinkedList<u64>,
}

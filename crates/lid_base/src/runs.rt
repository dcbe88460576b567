//! What runs tell: what a station shows, what an actor answers, and what a worker counted.

/// What a station shows in a cycle of the clocked run, as it stood when the cycle began.
#[derive(Clone, Copy, PartialEq, Eq)]
pub struct Shown {
    /// Whether it held a token.
    pub valid: bool,
    /// Whether it held as many tokens as its capacity.
    pub stop: bool,
    /// Its oldest token, below 2^31, and 0 where it held none.
    pub token: u32,
}

/// What an actor answers to a step. An actor looks at each station that it drains, then at each
/// that it fills, then takes from the first and puts into the others; with that it has fired. A
/// station is told by its number, and a token lies below 2^31.
#[derive(Clone, Copy, PartialEq, Eq)]
pub enum Answer {
    /// The station that it drains has this token next.
    Token {
        station: u32,
        token: u32,
    },
    /// The station that it drains held no token; the word has the place of the next one.
    Void {
        station: u32,
        word: u64,
    },
    /// The station that it fills has room.
    Room {
        station: u32,
    },
    /// The station that it fills held as many tokens as its capacity; the word has the place of the
    /// next one.
    Stop {
        station: u32,
        word: u64,
    },
    /// It took this token; `fired` where this was the last step of a firing.
    Took {
        station: u32,
        token: u32,
        fired: bool,
    },
    /// It put this token; `fired` where this was the last step of a firing.
    Put {
        station: u32,
        token: u32,
        fired: bool,
    },
    /// An actor without stations fired.
    Fired,
    /// It has made all its firings.
    Done,
}

/// What a worker of a free run counted in its rounds. A turn is the steps of one actor from rest
/// back to rest, and ends in one of four ways, so that `turns` is the sum of the other counts.
#[derive(Clone, Copy, PartialEq, Eq)]
pub struct Tally {
    /// The turns of its actors.
    pub turns: u64,
    /// The turns in which an actor fired.
    pub fired: u64,
    /// The turns that ended at a station without a token.
    pub voids: u64,
    /// The turns that ended at a station without room.
    pub stops: u64,
    /// The turns of actors that had made all their firings.
    pub dones: u64,
}

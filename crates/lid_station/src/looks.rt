//! The ends of stations, and what looks at them answer.

/// What a look at a drained end answers.
#[derive(Clone, Copy, Debug, PartialEq, Eq)]
pub enum InLook {
    /// The next token, below 2^31.
    Token(u32),
    /// The station holds nothing; with the word that has the place of the next token.
    Void(u64),
}

/// What a look at a filled end answers.
#[derive(Clone, Copy, Debug, PartialEq, Eq)]
pub enum OutLook {
    /// A place is free.
    Room,
    /// The station holds its capacity; with the word that has the place of the next token.
    Stop(u64),
}

/// One of the two sides of a station.
#[derive(Clone, Copy, Debug, PartialEq, Eq)]
pub enum Side {
    /// The side where tokens are put.
    Fill,
    /// The side where tokens are taken.
    Drain,
}

/// One end of a station.
#[derive(Clone, Copy, Debug, PartialEq, Eq)]
pub struct End {
    /// The station's number, from 0.
    pub station: u32,
    /// The side of it.
    pub side: Side,
}

//! The plain station.

ghost use Rattle.std.specs.Prelude.{◌≡◌, ◌+◌, ◌^◌, ◌<◌, ◌≤◌, true, length};
ghost use Rattle.std.specs.List.{All};

/// A plain station: a queue of 2 to 16 places.
///
/// Tokens are numbered from 0, the start token included. Token number i stands in
/// `places[i % places.len()]`.
#[derive(Drop)]
pub struct Pair {
    /// How many tokens were put, the start token included.
    pub put: u64,
    /// How many tokens were taken, at most as many as were put.
    pub taken: u64,
    /// The places, as many as the capacity, each below 2^31. A place whose token was taken keeps
    /// it until another token is put there.
    pub places: Vec<u32>,
    /// Whether a token was seen and not taken. It is true only where the station holds a token.
    pub token_seen: bool,
    /// Whether room was seen and not used. It is true only where a place is free.
    pub room_seen: bool,
    ghost two: { 2 ≤ length places.items },
    ghost few: { length places.items ≤ 16 },
    ghost small: { All (λ token. token < 2 ^ 31) places.items },
    ghost ordered: { taken ≤ put },
    ghost within: { put ≤ taken + length places.items },
    ghost token_there: { token_seen ≡ true → taken < put },
    ghost room_there: { room_seen ≡ true → put < taken + length places.items },
}

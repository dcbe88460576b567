//! The two halves of a word.

ghost use Rattle.std.specs.Prelude.{◌≡◌, ◌^◌, ◌<◌};
ghost use Rattle.lid_board.specs.Halves.{word_half, others, filling};

/// The full bit of an even place.
pub(crate) const FULL: u64 = 1 << 31;

/// How many numbers a half can be.
const HALF: u64 = 1 << 32;

/// What a word shows of a place.
pub(crate) fn half_at(place: u64, word: u64) -> u64
    ensures { result ≡ word_half place word }
{
    if place % 2 == 0 {
        word % HALF
    } else {
        word / HALF
    }
}

/// The bits of a word that stay where a place is emptied.
pub(crate) fn bits_beside(place: u64) -> u64
    ensures { result ≡ others place }
{
    if place % 2 == 0 {
        u64::MAX - (HALF - 1)
    } else {
        HALF - 1
    }
}

/// The bits of a token in a place, with the full bit.
pub(crate) fn bits_of(place: u64, token: u32) -> u64
    requires { token < 2 ^ 31 }
    ensures { result ≡ filling place token }
{
    let half = FULL + u64::from(token);
    if place % 2 == 0 { half } else { HALF * half }
}

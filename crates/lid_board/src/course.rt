//! What a board carries.

ghost use Rattle.std.specs.Prelude.{ℕ, List};

/// The streams that a board is started for: one list of tokens for each station. They are for
/// contracts alone, and the board keeps nothing of them.
pub trait Course {
    ghost streams: { Self → List (List ℕ) };
}

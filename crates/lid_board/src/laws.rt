//! What follows from the relation of a board, and from what stations are made of.

ghost use Rattle.lid_board.specs.Lending.{LentHandsComeBack};
ghost use Rattle.lid_board.specs.Prefixes.{StationsKeepPrefixes};

/// Between any two steps of any hands, each station has each of its ends in one view, and the
/// tokens that left it are a prefix of those that entered it, these a prefix of the board's stream,
/// and at most the capacity more.
pub fn stations_keep_prefixes()
    ensures { StationsKeepPrefixes }
{}

/// Stations by a hand at its board that went to code over any stations, by `&mut`, and came back
/// made of the same, have the hand that was lent. It is one of that board, and has as many ends.
pub fn lent_hands_come_back()
    ensures { LentHandsComeBack }
{}

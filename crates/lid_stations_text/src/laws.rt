//! What is known of printed placements. The function here does nothing; its contract is a law for all systems
//! and placements.

ghost use Rattle.lid_stations_text.specs.Laws.{PrintedStationsAreReadBack};

/// The text of a placement that fits a system, whose channels have pieces below 2^64, is read back as the
/// placement.
pub fn printed_stations_are_read_back()
    ensures { PrintedStationsAreReadBack }
{}

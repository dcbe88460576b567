//! What further relay stations on a channel do. Each function here does nothing; its contract is a law for
//! all systems and placements.

ghost use Rattle.lid_slack_longer.specs.Laws.{LongerFits, NoneAreNone, FewerKeep, LabelsKeep, WaysClose};

/// A placement with as many further relay stations on a channel as there is room for fits the system.
pub fn further_stations_fit()
    ensures { LongerFits }
{}

/// No further relay stations change nothing.
pub fn none_are_none()
    ensures { NoneAreNone }
{}

/// Where the component of a channel keeps its ratio with some further relay stations there, it keeps it
/// with fewer. (It may be higher with some, and lower again with more.)
pub fn fewer_keep()
    ensures { FewerKeep }
{}

/// Labels of the present marked graph show that the component of a channel keeps a ratio with some further
/// relay stations there.
pub fn labels_keep()
    ensures { LabelsKeep }
{}

/// A way from where the last station of a channel is drained to where it is filled is closed by that station and
/// the further relay stations after it: the walk has an edge for each of them, and no more tokens than the way and
/// the last station.
pub fn ways_close()
    ensures { WaysClose }
{}

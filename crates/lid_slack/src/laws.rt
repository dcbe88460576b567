//! What it means to keep a ratio. The function here does nothing; its contract is a law for all systems and
//! placements.

ghost use Rattle.lid_slack.specs.Laws.{KeepingIsNotLowering};

/// The ratio of a channel's component is kept with some further relay stations exactly where its ratio with
/// them is not below the present one.
pub fn keeping_is_not_lowering()
    ensures { KeepingIsNotLowering }
{}

//! That there are slacks. Each function here does nothing; its contract is a law for all systems and placements.

ghost use Rattle.lid_slack_laws.specs.Laws.{ChannelsHaveSlacks, SlacksAreUnique, PlacementsHaveSlackTexts};

/// Each channel of a system with its stations has a slack, with a certificate of the marked graph with so many further
/// relay stations and, where there is room for one more, a closed walk that lowers the ratio then, and that ratio.
pub fn channels_have_slacks()
    ensures { ChannelsHaveSlacks }
{}

/// A channel has no second slack.
pub fn slacks_are_unique()
    ensures { SlacksAreUnique }
{}

/// There is a text that `slack` may answer for a system with its stations: a line for each channel.
pub fn placements_have_slack_texts()
    ensures { PlacementsHaveSlackTexts }
{}

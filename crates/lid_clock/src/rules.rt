//! The laws that clocked runs rest on.

ghost use Rattle.lid_clock.specs.Rules.{RunsGoByRules};

use lid_shell_laws::{
    actors_fire_by_the_rule, movers_move_tokens_on, nodes_pass_the_tokens_of_channels,
};
use lid_stations::stations_stand_between_actors;

/// What is known of all runs. This does nothing; its contract is what laws say, in one.
pub fn runs_go_by_rules()
    ensures { RunsGoByRules }
{
    actors_fire_by_the_rule();
    nodes_pass_the_tokens_of_channels();
    movers_move_tokens_on();
    stations_stand_between_actors();
}

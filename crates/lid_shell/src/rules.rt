//! The laws that actors rest on.

ghost use Rattle.lid_shell.specs.Inside.{ActorsGoByRules};

use lid_shell_laws::{movers_move_tokens_on, nodes_pass_the_tokens_of_channels};
use lid_stations::stations_stand_between_actors;

/// What is known of all actors and stations. This does nothing; its contract is what laws say, in one.
pub fn actors_go_by_rules()
    ensures { ActorsGoByRules }
{
    stations_stand_between_actors();
    nodes_pass_the_tokens_of_channels();
    movers_move_tokens_on();
}

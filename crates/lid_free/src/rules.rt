//! The laws that free runs rest on.

ghost use Rattle.lid_free.specs.Rules.{FreeRunsGoByRules};

use lid_stations::stations_have_two_edges;
use lid_system::systems_have_one_table;

/// What is known of all systems and stations. This does nothing; its contract is what laws say, in one.
pub(crate) fn runs_go_by_rules()
    ensures { FreeRunsGoByRules }
{
    systems_have_one_table();
    stations_have_two_edges();
}

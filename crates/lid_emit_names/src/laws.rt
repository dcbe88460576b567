//! Laws of designs of named wires. The functions here do nothing; their contracts are laws for all plans.

ghost use Rattle.lid_emit_names.specs.Laws.{NamedDesignsAreWellFormed, NamedDesignsAreAccepted, NamedDesignsRunAsNetworks};

use lid_check_laws::one_model_is_accepted;

/// A design whose nets are the wires of a plan that is connected is well formed. Where each wire has a name of
/// its own, its strict tables are those of the network, and it is accepted if it has at most 262,144 cells and
/// 786,430 inputs.
pub fn named_designs_are_accepted()
    ensures formed { NamedDesignsAreWellFormed }
    ensures accepted { NamedDesignsAreAccepted }
    ensures runs { NamedDesignsRunAsNetworks }
{
    one_model_is_accepted();
}

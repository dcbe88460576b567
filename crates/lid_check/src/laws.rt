//! What follows from the definitions of acceptance. The function here does nothing; its contract is a
//! law for all designs.

ghost use Rattle.std.specs.Prelude.{◌≡◌};
ghost use Rattle.lid_design.specs.declared.Design.{Design};
ghost use Rattle.lid_check_rules.specs.declared.fault.CheckFault.{CheckFault};
ghost use Rattle.lid_check.specs.Acceptance.{IsAccepted, IsRefusal};

/// An accepted design is not refused, and a design is refused for at most one fault. So which fault is
/// told is a function of the design.
pub fn acceptance_is_one()
    ensures apart { (d : Design) (fault : CheckFault) → IsAccepted d → ¬ IsRefusal d fault }
    ensures one { (d : Design) (fault other : CheckFault) → IsRefusal d fault → IsRefusal d other → fault ≡ other }
{}

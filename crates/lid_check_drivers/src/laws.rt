//! The law of designs whose models pass the conditions on models.

ghost use Rattle.lid_design.specs.declared.Design.{Design};
ghost use Rattle.lid_design.specs.Columns.{Column, drivers};
ghost use Rattle.lid_design.specs.Walks.{IsDriven};
ghost use Rattle.lid_check_drivers.specs.Judged.{IsJudged};
ghost use Rattle.lid_check_drivers.specs.Locals.{IsToldByModel};

/// Where the models of a design pass the conditions on models, each driven column has exactly one
/// driver, and it is that of its net in its model. This does nothing; its contract is the law, for all
/// designs.
pub fn accepted_models_drive_each_net_once()
    ensures { (d : Design) → IsJudged d → (c : Column) → IsDriven (drivers d) c → IsToldByModel d c }
{}

//! The law of accepted designs.

ghost use Rattle.lid_base.specs.Lists.{Among};
ghost use Rattle.lid_design.specs.declared.Design.{Design};
ghost use Rattle.lid_design.specs.Columns.{Column, drivers};
ghost use Rattle.lid_design.specs.Elaboration.{columns};
ghost use Rattle.lid_design.specs.Walks.{IsDriven, HasTable, HasOneTable};
ghost use Rattle.lid_design.specs.WellFormed.{IsWellFormed};
ghost use Rattle.lid_check.specs.Acceptance.{IsAccepted};

/// An accepted design has a strict table for any rows, and two strict tables for the same rows agree on
/// each driven column in each row; all its columns are driven. This does nothing; its contract is the
/// law, for all designs.
pub fn accepted_have_one_table()
    ensures some { (d : Design) → IsWellFormed d → IsAccepted d → HasTable (drivers d) }
    ensures one { (d : Design) → IsWellFormed d → IsAccepted d → HasOneTable (drivers d) }
    ensures driven { (d : Design) → IsWellFormed d → IsAccepted d → (c : Column) → Among c (columns d) → IsDriven (drivers d) c }
{}

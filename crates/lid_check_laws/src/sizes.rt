//! What acceptance bounds. The functions here do nothing; their contracts are laws for all designs.

ghost use Rattle.std.specs.Prelude.{◌≡◌, ◌≤◌, ◌+◌, ◌*◌, ℕ, length, sum_by};
ghost use Rattle.lid_design.specs.declared.Design.{Design};
ghost use Rattle.lid_design.specs.declared.Flat.{Flat};
ghost use Rattle.lid_design.specs.declared.FlatCover.{FlatCover};
ghost use Rattle.lid_design.specs.Flat.{IsFlat};
ghost use Rattle.lid_check_parts.specs.declared.part.PearlPart.{PearlPart};
ghost use Rattle.lid_check_parts.specs.PearlParts.{IsPearlPart};
ghost use Rattle.lid_check.specs.Acceptance.{IsAccepted};
ghost use Rattle.lid_check.specs.Flats.{IsFlatOf};
ghost use Rattle.lid_check_laws.specs.Sizes.{count_logic};

/// The nets of the flat part of a pearl are as many as its part has columns, and as its inputs, latches and
/// covers together; there are at most 1,048,576 of them. Its latches, and its covers but for those that
/// pass one net on, are at most 262,144. Its covers read, each with all its inputs, at most 64 times as many
/// nets as there are.
pub fn flat_parts_are_small()
    ensures part { (d : Design) (pearl : ℕ) (part : PearlPart) (f : Flat) → IsPearlPart d pearl part → IsFlatOf d pearl f → f.nets ≡ part.nets }
    ensures drivers { (f : Flat) → IsFlat f → length f.ins + length f.latches + length f.covers ≡ f.nets }
    ensures reads { (f : Flat) → IsFlat f → sum_by (λ (c : FlatCover). length c.ins) f.covers ≤ 64 * f.nets }
    ensures nets { (d : Design) (pearl : ℕ) (part : PearlPart) (f : Flat) → IsAccepted d → IsPearlPart d pearl part → IsFlatOf d pearl f → f.nets ≤ 1048576 }
    ensures cells { (d : Design) (pearl : ℕ) (part : PearlPart) (f : Flat) → IsAccepted d → IsPearlPart d pearl part → IsFlatOf d pearl f → IsFlat f
        → length f.latches + count_logic f.covers ≤ 262144 }
{}

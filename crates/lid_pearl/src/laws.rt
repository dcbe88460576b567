//! Laws of pearls.

ghost use Rattle.std.specs.Prelude.{◌≡◌, ◌<◌, ◌+◌, ℕ, Bool, List, Some, length, map, slice_get};
ghost use Rattle.lid_design.specs.declared.Flat.{Flat};
ghost use Rattle.lid_design.specs.Network.{Table, IsStrict};
ghost use Rattle.lid_design.specs.Flat.{flat_drivers, IsFlat, latch_init, state_at};
ghost use Rattle.lid_pearl.specs.Pearls.{View, IsReordered, Shows, Steps};

/// Steps are rows of strict tables. A pearl whose latches begin has the state of the first row; one with the
/// state of row t shows the output bits of row t, and a step with the inputs of row t takes it to the
/// state of row t + 1, and to the outputs of that row where there is one. This does nothing; its
/// contract is the law.
pub fn pearls_follow_tables()
    ensures begins { (p : View) (b : Table ℕ) → p.state ≡ map latch_init p.flat.latches → p.state ≡ state_at p.flat b 0 }
    ensures shows { (p : View) (rows : List (List Bool)) (b : Table ℕ) (t : ℕ) (outs : List Bool) → IsStrict (flat_drivers p.flat) rows b
        → t < length rows → p.state ≡ state_at p.flat b t → Shows p outs → outs ≡ map (b t) p.flat.outs }
    ensures goes { (p q : View) (rows : List (List Bool)) (b : Table ℕ) (t : ℕ) (inputs outs : List Bool) → IsStrict (flat_drivers p.flat) rows b
        → slice_get rows t ≡ Some inputs → length inputs ≡ length p.flat.ins → p.state ≡ state_at p.flat b t → Steps p inputs q outs
        → q.state ≡ state_at q.flat b (t + 1) }
    ensures gives { (p q : View) (rows : List (List Bool)) (b : Table ℕ) (t : ℕ) (inputs outs : List Bool) → IsStrict (flat_drivers p.flat) rows b
        → slice_get rows t ≡ Some inputs → length inputs ≡ length p.flat.ins → p.state ≡ state_at p.flat b t → Steps p inputs q outs
        → t + 1 < length rows → outs ≡ map (b (t + 1)) p.flat.outs }
{}

/// A flat part and one with its covers in the order of a pearl have the same strict tables. This does
/// nothing; its contract is the law.
pub fn reordered_parts_have_the_same_tables()
    ensures there { (f g : Flat) (rows : List (List Bool)) (b : Table ℕ) → IsReordered f g → IsStrict (flat_drivers f) rows b
        → IsStrict (flat_drivers g) rows b }
    ensures back { (f g : Flat) (rows : List (List Bool)) (b : Table ℕ) → IsReordered f g → IsStrict (flat_drivers g) rows b
        → IsStrict (flat_drivers f) rows b }
{}

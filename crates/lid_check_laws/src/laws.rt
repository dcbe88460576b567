//! What makes a design accepted. The functions here do nothing; their contracts are laws for all designs.

ghost use Rattle.std.specs.Prelude.{◌≡◌, ◌≤◌, ◌+◌, ℕ, List, [], length, sum_by, Some, slice_get};
ghost use Rattle.lid_base.specs.Lists.{Among};
ghost use Rattle.lid_design.specs.declared.Design.{Design};
ghost use Rattle.lid_design.specs.declared.Model.{Model};
ghost use Rattle.lid_design.specs.declared.Inst.{Inst};
ghost use Rattle.lid_design.specs.Columns.{model_named};
ghost use Rattle.lid_design.specs.Loops.{HasNoLoop};
ghost use Rattle.lid_design.specs.WellFormed.{IsWellFormed};
ghost use Rattle.lid_design.specs.Elaboration.{count_cells, count_nets};
ghost use Rattle.lid_check_rules.specs.Acceptance.{ModelsPass};
ghost use Rattle.lid_check_loops.specs.Dependence.{HasNoDependence};
ghost use Rattle.lid_check.specs.Acceptance.{IsAccepted};
ghost use Rattle.lid_check_laws.specs.Plain.{IsPlainPearl, IsRising, IsApart, AreParted, IsPlainInst, root_drivers, IsPlainRoot, cells_below, nets_below};

/// A design whose root has no instances is accepted where each net of the root is driven once, there are
/// no clock names, covers read lower nets than they drive, a set of nets parts the inputs from the
/// outputs, and at most 262,144 cells drive, with the inputs, at most 1,048,576 nets.
pub fn one_model_is_accepted()
    ensures models { (d : Design) (m : Model) → slice_get d.models d.root ≡ Some m → IsPlainPearl m → length m.cells ≤ 262144
        → length m.inputs + length m.cells ≤ 1048576 → ModelsPass d }
    ensures loops { (d : Design) (m : Model) (heights : List (List ℕ × ℕ)) → slice_get d.models d.root ≡ Some m → m.insts ≡ [] → IsRising heights m
        → HasNoLoop d }
    ensures outputs { (d : Design) (m : Model) (late : List (List ℕ)) → slice_get d.models d.root ≡ Some m → m.insts ≡ [] → IsApart late m → HasNoDependence d }
    ensures accepted { (d : Design) (m : Model) (heights : List (List ℕ × ℕ)) (late : List (List ℕ)) → slice_get d.models d.root ≡ Some m
        → IsPlainPearl m → IsRising heights m → IsApart late m → length m.cells ≤ 262144 → length m.inputs + length m.cells ≤ 1048576 → IsAccepted d }
{}

/// A design whose root has instances is accepted where the root and the models of its instances meet the
/// facts of plain roots and pearls, covers read lower nets than they drive in each of these models, a set
/// of nets parts the inputs of each model of an instance from its outputs, and no limit is exceeded.
/// Heights and sets of nets are told for each model. The cells are those of the root, its instances and the
/// cells of their models, and there are no more nets than drivers in the root and in these models.
pub fn roots_with_instances_are_accepted()
    ensures models { (d : Design) (m : Model) → IsWellFormed d → slice_get d.models d.root ≡ Some m → IsPlainRoot d m
        → ((inst : Inst) (sub : Model) → Among inst m.insts → IsPlainInst d inst sub → AreParted sub) → count_cells d ≤ 262144
        → count_nets d ≤ 1048576 → ModelsPass d }
    ensures accepted { (d : Design) (m : Model) (heights : Model → List (List ℕ × ℕ)) (late : Model → List (List ℕ)) → IsWellFormed d
        → slice_get d.models d.root ≡ Some m → IsPlainRoot d m → IsRising (heights m) m
        → ((inst : Inst) (sub : Model) → Among inst m.insts → IsPlainInst d inst sub → IsRising (heights sub) sub × IsApart (late sub) sub)
        → count_cells d ≤ 262144 → count_nets d ≤ 1048576 → IsAccepted d }
{}

/// The counts of a design whose root has instances, by the lists of its models.
pub fn roots_with_instances_are_counted()
    ensures cells { (d : Design) (m : Model) → IsWellFormed d → slice_get d.models d.root ≡ Some m → IsPlainRoot d m
        → count_cells d ≡ length m.cells + length m.insts + sum_by (cells_below d) m.insts }
    ensures nets { (d : Design) (m : Model) → IsWellFormed d → slice_get d.models d.root ≡ Some m → IsPlainRoot d m
        → count_nets d ≤ length (root_drivers d m) + sum_by (nets_below d) m.insts }
{}

/// A model of a well-formed design is the one that its name tells. So what an instance drives, and what is
/// counted in it, can be read off its model.
pub fn models_are_found_by_name()
    ensures { (d : Design) (m : Model) (name : List ℕ) → IsWellFormed d → Among m d.models → m.name ≡ name → model_named d name ≡ Some m }
{}

/// Designs meet these facts: one of a model with an input, an output, a cover and a latch, and one with an
/// instance of that model.
pub fn some_designs_are_plain()
    ensures lone { (d : Design) × (m : Model) × (heights : List (List ℕ × ℕ)) × (late : List (List ℕ)) × (slice_get d.models d.root ≡ Some m)
        × IsPlainPearl m × IsRising heights m × IsApart late m × (length m.inputs ≡ 1) × (length m.outputs ≡ 1) × (length m.cells ≡ 2) }
    ensures assembled { (d : Design) × (m : Model) × (heights : Model → List (List ℕ × ℕ)) × (late : Model → List (List ℕ)) × IsWellFormed d
        × (slice_get d.models d.root ≡ Some m) × IsPlainRoot d m × IsRising (heights m) m
        × ((inst : Inst) (sub : Model) → Among inst m.insts → IsPlainInst d inst sub → IsRising (heights sub) sub × IsApart (late sub) sub)
        × (length m.inputs ≡ 1) × (length m.outputs ≡ 1) × (length m.insts ≡ 1) }
{}

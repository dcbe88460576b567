ghost use Rattle.std.specs.Prelude.{◌≡◌, ℕ, length, sum_by, []};
ghost use Rattle.lid_design.specs.declared.Design.{Design};
ghost use Rattle.lid_design.specs.Elaboration.{instances_in};
ghost use Rattle.lid_check_models.specs.declared.counts.Measure.{Measure};
ghost use Rattle.lid_check_models.specs.declared.counts.Measure.TheVariants.{Depth};
ghost use Rattle.lid_check_models.specs.Counts.{own, count_of};

/// What is counted in a model is the sum, over the model and all instances in it by all paths, of what
/// each has itself; but for the depth, which is no sum. This does nothing; its contract is the law.
pub fn counts_are_sums()
    ensures { (what : Measure) (d : Design) (k : ℕ) → (what ≡ Depth → ⊥)
        → count_of what d k ≡ sum_by (λ p. own what d p.model) (instances_in (length d.models) d [] k) }
{}

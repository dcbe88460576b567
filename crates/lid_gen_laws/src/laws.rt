//! What holds of each generated design. The functions here do nothing; their contracts are laws for all
//! seeds.

ghost use Rattle.std.specs.Prelude.{◌≡◌, ◌≤◌, ◌+◌, ◌*◌, ℕ, List, length, None};
ghost use Rattle.std.specs.List.{AllByRecursion};
ghost use Rattle.lid_design.specs.Columns.{root_inputs};
ghost use Rattle.lid_design.specs.WellFormed.{IsWellFormed};
ghost use Rattle.lid_blifout.specs.Writable.{IsWritable};
ghost use Rattle.lid_check.specs.Acceptance.{IsAccepted};
ghost use Rattle.lid_system.specs.declared.Channel.{Channel};
ghost use Rattle.lid_net.specs.Graphs.{IsGraphOf};
ghost use Rattle.lid_gen.specs.Designs.{generated, size_fault};
ghost use Rattle.lid_gen.specs.Runs.{generated_rows, generated_relays};

use lid_check_laws::{roots_with_instances_are_accepted, roots_with_instances_are_counted};

/// Each generated design with 1 to 2,000 shells is well formed and accepted.
pub fn generated_designs_are_accepted()
    ensures formed { (seed shells : ℕ) → size_fault shells ≡ None → IsWellFormed (generated seed shells) }
    ensures accepted { (seed shells : ℕ) → size_fault shells ≡ None → IsAccepted (generated seed shells) }
{
    roots_with_instances_are_accepted();
    roots_with_instances_are_counted();
}

/// Each generated design with 1 to 2,000 shells can be written, so that its text is read as that design.
pub fn generated_designs_are_writable()
    ensures { (seed shells : ℕ) → size_fault shells ≡ None → IsWritable (generated seed shells) }
{}

/// The system of a generated design has at most two channels for each shell and one for each output, which
/// is far below the limit of systems.
pub fn generated_systems_are_small()
    ensures { (seed shells : ℕ) (channels : List Channel) → size_fault shells ≡ None → IsGraphOf (generated seed shells) channels
        → length channels ≤ 2 * shells + 4 }
{
    generated_designs_are_accepted();
}

/// The rows of a generated run are named and as wide as the inputs of its design, and there are as many as
/// were asked for. Its relay stations are as many numbers as there are channels, each at most 3.
pub fn generated_runs_fit()
    ensures columns { (seed shells rows : ℕ) → size_fault shells ≡ None → (generated_rows seed shells rows).columns ≡ root_inputs (generated seed shells) }
    ensures rows { (seed shells rows : ℕ) → length (generated_rows seed shells rows).bits ≡ rows }
    ensures wide { (seed shells rows : ℕ)
        → AllByRecursion (λ row. length row ≡ length (generated_rows seed shells rows).columns) (generated_rows seed shells rows).bits }
    ensures relays { (seed shells rows channels : ℕ) → length (generated_relays seed shells rows channels) ≡ channels }
    ensures few { (seed shells rows channels : ℕ) → AllByRecursion (λ relays. relays ≤ 3) (generated_relays seed shells rows channels) }
{}

ghost use Rattle.std.specs.Prelude.{◌≡◌, ◌⊎◌, ◌<◌, ◌≤◌, ◌^◌, ℕ, List, length, position, option_map, Some, slice_get, IfOk, IfErr, IfSome};
ghost use denote.Ref.{Bor};
ghost use Rattle.std.specs.Str.{bytes_eq};
ghost use Rattle.lid_design.specs.Columns.{root_inputs, root_outputs};
ghost use Rattle.lid_design.specs.Flat.{IsFlat};
ghost use Rattle.lid_design.specs.Loops.{pearls};
ghost use Rattle.lid_design.specs.Elaboration.{count_latches, count_defaulted};
ghost use Rattle.lid_design.specs.WellFormed.{IsWellFormed};
ghost use Rattle.lid_check_rules.specs.declared.fault.CheckFault.TheVariants.{Memory};
ghost use Rattle.lid_check_parts.specs.PearlParts.{IsPearlPart};
ghost use Rattle.lid_check.specs.Flats.{IsFlatOf};
ghost use Rattle.lid_check.specs.Networks.{IsNetwork};
ghost use Rattle.lid_check.specs.Acceptance.{rooted_at, with_root, IsAccepted, IsRefused};

use crate::judging::{Facts, accept};
use crate::network::Network;
use lid_base::Name;
use lid_check_parts::{PearlPart, flatten};
use lid_check_rules::CheckFault;
use lid_design::{Design, Flat};
use std::alloc::{AllocError, Global};
use std::marker::Model;

/// A design that was accepted, with its root. A contract sees the design.
#[derive(Drop)]
pub struct Checked {
    design: Design,
    facts: Facts,
}

impl Model for Checked {
    ghost use Rattle.lid_design.specs.declared.Design.{Design};
    ghost use Rattle.lid_check.specs.Facts.{AreFacts};

    ghost Value = { Design };

    ghost view = { λ s. s.design };

    ghost invariant = { λ s. AreFacts s.design s.facts };
}

/// Accepts or refuses a design, with the root that is chosen by name, where one is chosen, and else
/// with the root that it has.
///
/// # Errors
/// The first condition that applies is told, at its first place. `Memory` may come at any design.
pub fn check(alloc: Global, design: Design, root: Option<&Name>) -> Result<Checked, CheckFault>
    requires { IsWellFormed design }
    ensures ok { IfOk result (λ checked. (with_root design (option_map (λ (r : Bor (List ℕ)). r.now) root.entry) ≡ Some checked) × IsAccepted checked) }
    ensures err { IfErr result (λ fault. (fault ≡ Memory) ⊎ IsRefused (with_root design (option_map (λ (r : Bor (List ℕ)). r.now) root.entry)) fault) }
{
    let Some(root) = find_root(&design, root) else {
        return Err(CheckFault::NoRoot);
    };
    let design = Design {
        models: design.models,
        root,
    };
    match accept(alloc, &design) {
        Ok(facts) => Ok(Checked { design, facts }),
        Err(fault) => Err(fault),
    }
}

/// The number of the root.
fn find_root(design: &Design, root: Option<&Name>) -> Option<u32>
    requires { IsWellFormed design.now }
    ensures { option_map (rooted_at design.now) result ≡ with_root design.now (option_map (λ (r : Bor (List ℕ)). r.now) root.entry) }
{
    match root {
        None => Some(design.root),
        Some(name) => find_model(design.models.as_slice(), name),
    }
}

/// The number of the first model of a name.
fn find_model(models: &[lid_design::Model], name: &Name) -> Option<u32>
    requires { length models.now < 2 ^ 32 }
    ensures { result ≡ position (λ m. bytes_eq m.name name.now) models.now }
{
    match place_of(models, name) {
        Some(place) => Some(place as u32),
        None => None,
    }
}

/// The place of the first model of a name.
fn place_of(models: &[lid_design::Model], name: &Name) -> Option<usize>
    ensures value { result ≡ position (λ m. bytes_eq m.name name.now) models.now }
    ensures below { IfSome result (λ place. place < length models.now) }
{
    models
        .iter()
        .position(|model| model.name.as_slice() == name.as_slice())
}

impl Checked {
    /// The design.
    pub fn design(&self) -> &Design
        ensures same { result.now ≡ self.now }
        ensures accepted { IsAccepted self.now }
        ensures formed { IsWellFormed self.now }
    {
        &self.design
    }

    /// The number of the root among the models.
    pub fn root(&self) -> u32
        ensures { result ≡ self.now.root }
    {
        self.design.root
    }

    /// How many pearls there are: the instances of the root, or one where it has none.
    pub fn pearls(&self) -> u32
        ensures { result ≡ length (pearls self.now) }
    {
        self.facts.counts.pearls
    }

    /// How many latches there are, over all paths.
    pub fn latches(&self) -> u64
        ensures { result ≡ count_latches self.now }
    {
        self.facts.counts.latches
    }

    /// How many latches begin at 0 because their first bit was left open, over all paths.
    pub fn defaulted(&self) -> u64
        ensures { result ≡ count_defaulted self.now }
    {
        self.facts.counts.defaulted
    }

    /// The data inputs of the root, in order. There are at most as many as columns.
    pub fn inputs(&self) -> &[Name]
        ensures names { result.now ≡ root_inputs self.now }
        ensures few { length result.now ≤ 1048576 }
    {
        self.facts.inputs.as_slice()
    }

    /// The outputs of the root, in order. There are at most as many as columns.
    pub fn outputs(&self) -> &[Name]
        ensures names { result.now ≡ root_outputs self.now }
        ensures few { length result.now ≤ 1048576 }
    {
        self.root_model().outputs.as_slice()
    }

    /// The columns, as they are run.
    pub fn network(&self) -> &Network
        ensures { IsNetwork self.now result.now }
    {
        &self.facts.network
    }

    /// The columns of a pearl and of all instances in it, which have consecutive numbers.
    pub fn part(&self, pearl: u32) -> PearlPart
        requires { pearl < length (pearls self.now) }
        ensures { IsPearlPart self.now pearl result }
    {
        self.facts.parts.as_slice()[pearl as usize]
    }

    /// The flat part of a pearl: its columns with numbers from 0 on, and what drives each. It takes time
    /// in the size of the pearl, which is measured and not proved.
    ///
    /// # Errors
    /// Where there is no memory.
    pub fn flat(&self, alloc: Global, pearl: u32) -> Result<Flat, AllocError>
        requires { pearl < length (pearls self.now) }
        ensures rules { IfOk result IsFlat }
        ensures part { IfOk result (IsFlatOf self.now pearl) }
    {
        let drivers = self.facts.network.columns.drivers.as_slice();
        let part = self.facts.parts.as_slice()[pearl as usize];
        flatten(alloc, &self.design, drivers, part)
    }

    /// The root.
    fn root_model(&self) -> &lid_design::Model
        ensures model { slice_get self.now.models self.now.root ≡ Some result.now }
        ensures few { length (root_outputs self.now) ≤ 1048576 }
    {
        &self.design.models.as_slice()[self.design.root as usize]
    }
}

ghost use Rattle.std.specs.Prelude.{◌≡◌, ◌<◌, ◌^◌, length, [], option_map, slice_get, slice_index_or, IfOk, IfSome};
ghost use denote.Ref.{Bor};
ghost use Rattle.lid_design.specs.declared.Model.{Model};
ghost use Rattle.lid_design.specs.Columns.{is_among};
ghost use Rattle.lid_design.specs.Models.{HasNoRecursion, instance_number};
ghost use Rattle.lid_check_ports.specs.Ports.{names_in, sets_in, is_in, ArePorts};

use lid_base::{Items, Name};
use lid_check_hierarchy::Survey;
use lid_check_names::{NameSet, set_of};
use std::alloc::{AllocError, Global};
use std::marker::Model;

/// A list of a model.
#[derive(Clone, Copy)]
pub enum Port {
    Input,
    Output,
    Clock,
}

/// The sets of the names of the lists of all models.
#[derive(Drop)]
struct PortSets<'d> {
    inputs: Items<NameSet<'d>>,
    outputs: Items<NameSet<'d>>,
    clocks: Items<NameSet<'d>>,
}

/// What is known of the models of a design, with the sets of the names of their lists. A contract
/// sees the design.
#[derive(Drop)]
pub struct Ports<'d> {
    survey: Survey<'d>,
    sets: PortSets<'d>,
}

impl<'d> Model for Ports<'d> {
    ghost use Rattle.lid_design.specs.declared.Design.{Design};
    ghost use Rattle.lid_check_ports.specs.Ports.{ArePorts};

    ghost Value = { Design };

    ghost view = { λ s. s.survey };

    ghost invariant = { λ s. ArePorts s.survey.models s.sets.inputs s.sets.outputs s.sets.clocks };
}

impl<'d> Ports<'d> {
    /// Collects the names of the lists of all models.
    pub fn collect(alloc: Global, survey: Survey<'d>) -> Result<Ports<'d>, AllocError>
        ensures ports { IfOk result (λ ports. ports ≡ survey.entry) }
        ensures flat { HasNoRecursion survey.entry }
    {
        let sets = collect_lists(alloc, survey.design().models.as_slice())?;
        Ok(Ports { survey, sets })
    }

    /// What is known of the models.
    pub fn survey(&self) -> &Survey<'d>
        ensures { result.now ≡ self.now }
    {
        &self.survey
    }

    /// The model of a number.
    pub fn model(&self, number: u32) -> Option<&'d lid_design::Model>
        ensures here { option_map (λ (m : Bor Model). m.now) result ≡ slice_get self.now.models number }
        ensures few { IfSome result (λ m. length m.now.insts < 2 ^ 32) }
    {
        let models = self.survey.design().models.as_slice();
        if (number as usize) < models.len() {
            Some(&models[number as usize])
        } else {
            None
        }
    }

    /// The number of the model of an instance, by the numbers of the model that has it and of the
    /// instance in that model. `None` where there is no such instance.
    pub fn model_of(&self, model: u32, inst: u32) -> Option<u32>
        ensures { result ≡ instance_number self.now inst model }
    {
        self.survey.model_of(model, inst)
    }

    /// Gives back what is known of the models.
    pub fn into_survey(self) -> Survey<'d>
        ensures { result ≡ self.entry }
    {
        let Ports { survey, .. } = self;
        survey
    }

    /// Whether a name is in a list of a model.
    pub fn has(&self, port: Port, model: u32, name: &[u8]) -> bool
        ensures { result ≡ is_in self.now port model name.now }
    {
        has_name(self.sets_of(port), model, name)
    }

    /// The sets of the names of a list of each model.
    fn sets_of(&self, port: Port) -> &[NameSet<'d>]
        ensures { result.now ≡ sets_in port self.now.models }
    {
        match port {
            Port::Input => self.sets.inputs.as_slice(),
            Port::Output => self.sets.outputs.as_slice(),
            Port::Clock => self.sets.clocks.as_slice(),
        }
    }
}

/// The sets of the names of the lists of some models.
fn collect_lists<'d>(
    alloc: Global,
    models: &'d [lid_design::Model],
) -> Result<PortSets<'d>, AllocError>
    ensures { IfOk result (λ sets. ArePorts models.now sets.inputs sets.outputs sets.clocks) }
{
    let inputs = collect_sets(alloc, models, Port::Input)?;
    let outputs = collect_sets(alloc, models, Port::Output)?;
    let clocks = collect_sets(alloc, models, Port::Clock)?;
    Ok(PortSets {
        inputs,
        outputs,
        clocks,
    })
}

/// The sets of the names of a list of each model.
fn collect_sets<'d>(
    alloc: Global,
    models: &'d [lid_design::Model],
    port: Port,
) -> Result<Items<NameSet<'d>>, AllocError>
    ensures { IfOk result (λ sets. sets ≡ sets_in port models.now) }
{
    let mut sets = Vec::with_capacity(alloc, models.len())?;
    for model in models {
        sets.push(set_of(alloc, names_of(model, port))?)?;
    }
    Ok(Items::from_vec(sets))
}

/// The names of a list of a model.
fn names_of(model: &lid_design::Model, port: Port) -> &[Name]
    ensures { result.now ≡ names_in port model.now }
{
    match port {
        Port::Input => model.inputs.as_slice(),
        Port::Output => model.outputs.as_slice(),
        Port::Clock => model.clocks.as_slice(),
    }
}

/// Whether a name is in the set of a number. There is none past the last.
fn has_name(sets: &[NameSet<'_>], number: u32, name: &[u8]) -> bool
    ensures { result ≡ is_among name.now (slice_index_or sets.now number []) }
{
    match sets.get(number as usize) {
        Some(set) => set.has(name),
        None => false,
    }
}

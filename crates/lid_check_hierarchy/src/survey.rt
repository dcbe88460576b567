ghost use Rattle.std.specs.Prelude.{◌≡◌, ◌⊎◌, ◌<◌, ◌^◌, ℕ, Option, Some, length, position, slice_get, IfOk, OnOk, IfErr, IsSome, option_map, List};
ghost use denote.Ref.{Bor};
ghost use Rattle.std.specs.Str.{bytes_eq};
ghost use Rattle.lid_design.specs.Columns.{is_among};
ghost use Rattle.lid_design.specs.Models.{IsReached, HasNoRecursion, insts_of, instance_number, is_clock_of, data_inputs_of, AreReached};
ghost use Rattle.lid_design.specs.Elaboration.{model_nets};
ghost use Rattle.lid_check_names.specs.Names.{texts};
ghost use Rattle.lid_design.specs.WellFormed.{IsWellFormed};
ghost use Rattle.lid_check_hierarchy.specs.declared.survey.SurveyFault.TheVariants.{Memory};
ghost use Rattle.lid_design.specs.declared.Model.{Model};
ghost use Rattle.lid_check_table.specs.Tables.{names_in, AreNumbersOf};
ghost use Rattle.lid_check_hierarchy.specs.Nets.{net_places};
ghost use Rattle.lid_check_hierarchy.specs.Graphs.{AreReachedAmong};
ghost use Rattle.lid_check_hierarchy.specs.Surveys.{AreKnown, AreNames, IsModelOrder, IsSurveyFault};

use crate::clocks::find_clocks;
use crate::inputs::{NameList, find_inputs};
use crate::nets::{NetLists, find_marks, find_nets, find_tables};
use crate::uses::Uses;
use lid_base::Items;
use lid_check_digraph::{Digraph, Found, find_order};
use lid_check_names::NameSet;
use lid_check_table::Table;
use lid_design::Design;
use std::alloc::{AllocError, Global};
use std::marker::Model;

/// The models of a design that are reached, none of which reaches itself. A contract sees the
/// design.
#[derive(Drop)]
pub struct Survey<'d> {
    uses: Uses<'d>,
    /// The numbers of the reached models, each after those of the models of its instances.
    order: Items<u32>,
    names: ModelNames<'d>,
}

/// The names in each model.
#[derive(Drop)]
pub struct ModelNames<'d> {
    /// The names by numbers.
    tables: Items<Table<'d>>,
    /// The clock names, none where a model is not reached.
    clocks: Items<NameSet<'d>>,
    /// The nets by the numbers of the names.
    nets: NetLists,
    /// The data inputs.
    inputs: Items<NameList<'d>>,
}

impl<'d> Model for Survey<'d> {
    ghost use Rattle.lid_design.specs.declared.Design.{Design};
    ghost use Rattle.lid_check_hierarchy.specs.declared.survey.SurveyFault.TheVariants.{Memory};
    ghost use Rattle.lid_check_hierarchy.specs.Graphs.{AreReachedAmong};
    ghost use Rattle.lid_check_hierarchy.specs.Surveys.{IsSurvey};

    ghost Value = { Design };

    ghost view = { λ s. s.uses };

    ghost invariant = { λ s. IsSurvey s.uses s.order s.names.tables s.names.clocks s.names.nets.numbers s.names.nets.places s.names.inputs };
}

/// Why the models of a design are not surveyed.
#[derive(Clone, Copy)]
pub enum SurveyFault {
    /// The first model, in the order of the text, that is reached and reaches itself.
    Recursive { model: u32 },
    /// There was no memory.
    Memory,
}

/// Finds an order of the reached models, their clock names, their nets and their data inputs.
///
/// # Errors
/// `Recursive` comes exactly where a reached model reaches itself. `Memory` may come at any design.
pub fn survey_models<'d>(alloc: Global, uses: Uses<'d>) -> Result<Survey<'d>, SurveyFault>
    requires { AreKnown uses }
    ensures ok { IfOk result (λ s. s ≡ uses.entry) }
    ensures err { IfErr result (IsSurveyFault uses.entry) }
{
    match find_model_order(alloc, &uses) {
        Ok(order) => survey_in_order(alloc, uses, order),
        Err(fault) => Err(fault),
    }
}

/// The survey of some models, by an order of those that are reached.
fn survey_in_order<'d>(
    alloc: Global,
    uses: Uses<'d>,
    order: Items<u32>,
) -> Result<Survey<'d>, SurveyFault>
    requires known { AreKnown uses }
    requires flat { HasNoRecursion uses }
    requires order { IsModelOrder uses order }
    ensures ok { IfOk result (λ s. s ≡ uses.entry) }
    ensures err { IfErr result (IsSurveyFault uses.entry) }
{
    match find_names(alloc, &uses, order.as_slice()) {
        Ok(names) => Ok(Survey { uses, order, names }),
        Err(_) => Err(SurveyFault::Memory),
    }
}

/// The names in the models of an order.
fn find_names<'d>(
    alloc: Global,
    uses: &Uses<'d>,
    order: &[u32],
) -> Result<ModelNames<'d>, AllocError>
    requires { IsModelOrder uses.now order.now }
    ensures { IfOk result (λ names. AreNames uses.now names.tables names.clocks names.nets.numbers names.nets.places names.inputs) }
{
    let clocks = find_clocks(alloc, uses, order)?;
    let models = uses.design().models.as_slice();
    let tables = find_tables(alloc, models)?;
    let marks = find_marks(alloc, tables.as_slice(), clocks.as_slice())?;
    let nets = find_nets(alloc, marks.as_slice())?;
    let inputs = find_inputs(alloc, tables.as_slice(), marks.as_slice())?;
    Ok(ModelNames {
        tables,
        clocks,
        nets,
        inputs,
    })
}

/// An order of the reached models, each after those of the models of its instances.
///
/// # Errors
/// `Recursive` comes exactly where a reached model reaches itself.
fn find_model_order(alloc: Global, uses: &Uses<'_>) -> Result<Items<u32>, SurveyFault>
    ensures order { IfOk result (IsModelOrder uses.now) }
    ensures flat { OnOk result (HasNoRecursion uses.now) }
    ensures err { IfErr result (IsSurveyFault uses.now) }
{
    let Ok(graph) = uses.graph(alloc) else {
        return Err(SurveyFault::Memory);
    };
    let graph = Digraph { reads: &graph };
    match find_order(alloc, &graph) {
        Ok(Found::Order(all)) => keep_order(alloc, uses, all.as_slice()),
        Ok(Found::Loop(model)) => Err(SurveyFault::Recursive { model }),
        Err(_) => Err(SurveyFault::Memory),
    }
}

/// Those models of an order that are reached.
fn keep_order(alloc: Global, uses: &Uses<'_>, all: &[u32]) -> Result<Items<u32>, SurveyFault>
    ensures ok { IfOk result (AreReachedAmong uses.now all.now) }
    ensures err { IfErr result (λ fault. fault ≡ Memory) }
{
    match uses.keep_reached(alloc, all) {
        Ok(order) => Ok(order),
        Err(_) => Err(SurveyFault::Memory),
    }
}

impl<'d> Survey<'d> {
    /// The design.
    pub fn design(&self) -> &'d Design
        ensures same { result.now ≡ self.now }
        ensures formed { IsWellFormed self.now }
        ensures known { (k i : ℕ) → IsReached self.now k → i < length (insts_of self.now k) → IsSome (instance_number self.now i k) }
        ensures flat { HasNoRecursion self.now }
    {
        self.uses.design()
    }

    /// The numbers of the reached models, in the order of the text.
    pub fn reached(&self) -> &[u32]
        ensures { AreReached self.now result.now }
    {
        self.uses.reached()
    }

    /// The numbers of the reached models, each after those of the models of its instances.
    pub fn order(&self) -> &[u32]
        ensures { IsModelOrder self.now result.now }
    {
        self.order.as_slice()
    }

    /// The number of the model of an instance, by the numbers of the model that has it and of the
    /// instance in that model. `None` where there is no such instance.
    pub fn model_of(&self, model: u32, inst: u32) -> Option<u32>
        ensures { result ≡ instance_number self.now inst model }
    {
        self.uses.model_of(model, inst)
    }

    /// Whether a name is a clock name of a reached model.
    pub fn is_clock(&self, model: u32, name: &[u8]) -> bool
        requires { IsReached self.now model }
        ensures { result ≡ is_clock_of self.now model name.now }
    {
        self.clocks_of(model).has(name)
    }

    /// The clock names of a reached model.
    pub fn clocks_of(&self, model: u32) -> &NameSet<'d>
        requires { IsReached self.now model }
        ensures { (name : List ℕ) → is_among name result.now ≡ is_clock_of self.now model name }
    {
        &self.names.clocks.as_slice()[model as usize]
    }

    /// The names of a reached model by numbers.
    pub fn table_of(&self, model: u32) -> &Table<'d>
        requires { IsReached self.now model }
        ensures { slice_get self.now.models model ≡ Some result.now }
    {
        &self.names.tables.as_slice()[model as usize]
    }

    /// The numbers of the nets of a reached model, in order.
    pub fn nets_of(&self, model: u32) -> &[u32]
        requires { IsReached self.now model }
        ensures { (m : Model) → slice_get self.now.models model ≡ Some m → AreNumbersOf (names_in m) (model_nets self.now model) result.now }
    {
        self.names.nets.numbers.as_slice()[model as usize].as_slice()
    }

    /// The place of a name of a reached model among its nets, by the number of the name. `None` where
    /// it is a clock name.
    pub fn place_at(&self, model: u32, number: u32) -> Option<u32>
        requires { IsReached self.now model }
        ensures { (m : Model) (name : List ℕ) → slice_get self.now.models model ≡ Some m → slice_get (names_in m) number ≡ Some name → result ≡ position (bytes_eq name) (model_nets self.now model) }
    {
        self.place_by(model, number as usize)
    }

    /// The place of a name of a reached model among its nets, by the number of the name.
    fn place_by(&self, model: u32, number: usize) -> Option<u32>
        requires { IsReached self.now model }
        ensures { (m : Model) (name : List ℕ) → slice_get self.now.models model ≡ Some m → slice_get (names_in m) number ≡ Some name → result ≡ position (bytes_eq name) (model_nets self.now model) }
    {
        match self.places_of(model).get(number) {
            Some(place) => *place,
            None => None,
        }
    }

    /// For each name of a reached model its place among the nets, where it is one.
    fn places_of(&self, model: u32) -> &[Option<u32>]
        requires { IsReached self.now model }
        ensures { (m : Model) → slice_get self.now.models model ≡ Some m → result.now ≡ net_places (model_nets self.now model) (names_in m) }
    {
        self.names.nets.places.as_slice()[model as usize].as_slice()
    }

    /// How many nets a reached model has.
    pub fn count_nets(&self, model: u32) -> usize
        requires { IsReached self.now model }
        ensures value { result ≡ length (model_nets self.now model) }
        ensures small { result < 2 ^ 63 }
    {
        let _ = &self.uses;
        self.nets_of(model).len()
    }

    /// The name of a net of a reached model, by its place among the nets.
    pub fn net_at(&self, model: u32, place: usize) -> Option<&'d [u8]>
        requires { IsReached self.now model }
        ensures { option_map (λ (r : Bor (List ℕ)). r.now) result ≡ slice_get (model_nets self.now model) place }
    {
        let _ = &self.uses;
        match item_at(self.nets_of(model), place) {
            Some(number) => self.table_of(model).name_at(number as usize),
            None => None,
        }
    }

    /// The data inputs of a reached model, in order.
    pub fn data_inputs(&self, model: u32) -> &[&'d [u8]]
        requires { IsReached self.now model }
        ensures { texts result.now ≡ data_inputs_of self.now model }
    {
        self.names.inputs.as_slice()[model as usize].as_slice()
    }

    /// The place of a net of a reached model, by its name.
    pub fn place_of(&self, model: u32, name: &[u8]) -> Option<usize>
        requires { IsReached self.now model }
        ensures { result ≡ position (bytes_eq name.now) (model_nets self.now model) }
    {
        match self.table_of(model).number_of(name) {
            Some(number) => widen(self.place_by(model, number)),
            None => None,
        }
    }
}

/// A place as an index.
fn widen(place: Option<u32>) -> Option<usize>
    ensures { result ≡ place }
{
    match place {
        Some(place) => Some(place as usize),
        None => None,
    }
}

/// The number at a place of a list.
fn item_at(numbers: &[u32], place: usize) -> Option<u32>
    ensures { result ≡ slice_get numbers.now place }
{
    numbers.get(place).copied()
}

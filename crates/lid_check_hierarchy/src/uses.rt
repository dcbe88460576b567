ghost use Rattle.std.specs.Prelude.{◌≡◌, ◌<◌, ◌^◌, ℕ, false, length, map, filter, position, replicate, IfOk};
ghost use Rattle.std.specs.Str.{bytes_eq};
ghost use Rattle.lid_check_names.specs.Names.{firsts};
ghost use Rattle.lid_check_hierarchy.specs.Surveys.{instance_numbers, AreReachedMarks};
ghost use Rattle.lid_check_hierarchy.specs.Graphs.{name_of, number_by, row_by, some_of, places_of_true, kept, kept_row, IsUsedGraph, AreReachedAmong};
ghost use Rattle.lid_check_digraph.specs.Graphs.{flag, IsGraph};
ghost use Rattle.lid_design.specs.Models.{instance_number, AreReached};
ghost use Rattle.lid_design.specs.WellFormed.{IsWellFormed};

use lid_base::Items;
use lid_check_digraph::{Digraph, ReadLists, find_reaching};
use lid_check_names::NameSet;
use lid_design::{Design, Inst};
use std::alloc::{AllocError, Global};
use std::marker::Model;

/// Which models of a design its instances name, and which models are reached from the root. A
/// contract sees the design.
#[derive(Drop)]
pub struct Uses<'d> {
    design: &'d Design,
    /// For each model, the number of the model of each of its instances.
    numbers: Items<Items<Option<u32>>>,
    reached: Reached,
}

/// Which models are reached.
#[derive(Drop)]
struct Reached {
    /// Whether each is.
    marks: Items<bool>,
    /// The numbers of those that are, in the order of the text.
    numbers: Items<u32>,
}

impl<'d> Model for Uses<'d> {
    ghost use Rattle.lid_design.specs.declared.Design.{Design};
    ghost use Rattle.lid_check_hierarchy.specs.Surveys.{IsUses};

    ghost Value = { Design };

    ghost view = { λ s. s.design.now };

    ghost invariant = { λ s. IsUses s.design.now s.numbers s.reached.marks s.reached.numbers };
}

/// Finds which models the instances of a design name, and which models are reached.
pub fn find_uses<'d>(alloc: Global, design: &'d Design) -> Result<Uses<'d>, AllocError>
    requires { IsWellFormed design.now }
    ensures { IfOk result (λ uses. uses ≡ design.now) }
{
    let numbers = number_instances(alloc, design)?;
    let reached = find_models(alloc, design, numbers.as_slice())?;
    Ok(Uses {
        design,
        numbers,
        reached,
    })
}

/// Finds which models are reached from the root.
fn find_models(
    alloc: Global,
    design: &Design,
    numbers: &[Items<Option<u32>>],
) -> Result<Reached, AllocError>
    requires formed { IsWellFormed design.now }
    requires numbers { numbers.now ≡ instance_numbers design.now }
    ensures marks { IfOk result (λ reached. AreReachedMarks design.now reached.marks) }
    ensures numbers { IfOk result (λ reached. AreReached design.now reached.numbers) }
{
    let marks = mark_used(alloc, design, numbers)?;
    let numbers = list_marked(alloc, marks.as_slice())?;
    Ok(Reached { marks, numbers })
}

/// The number of the model of each instance of each model.
fn number_instances(alloc: Global, design: &Design) -> Result<Items<Items<Option<u32>>>, AllocError>
    requires { IsWellFormed design.now }
    ensures { IfOk result (λ numbers. numbers ≡ instance_numbers design.now) }
{
    let names = name_models(alloc, design.models.as_slice())?;
    number_rows(alloc, &names, design.models.as_slice())
}

/// The number of the model of each instance of some models, by the names of all.
fn number_rows(
    alloc: Global,
    names: &NameSet<'_>,
    models: &[lid_design::Model],
) -> Result<Items<Items<Option<u32>>>, AllocError>
    requires { length names.now < 2 ^ 32 }
    ensures { IfOk result (λ rows. rows ≡ map (row_by names.now) models.now) }
{
    let mut rows = Vec::with_capacity(alloc, models.len())?;
    for model in models {
        rows.push(number_row(alloc, names, model.insts.as_slice())?)?;
    }
    Ok(Items::from_vec(rows))
}

/// The names of some models.
pub fn name_models<'d>(
    alloc: Global,
    models: &'d [lid_design::Model],
) -> Result<NameSet<'d>, AllocError>
    ensures { IfOk result (λ set. set ≡ firsts (map name_of models.now)) }
{
    let mut names = Vec::with_capacity(alloc, models.len())?;
    for model in models {
        names.push(model.name.as_slice())?;
    }
    NameSet::collect(alloc, names.as_slice())
}

/// The number of the model of each of some instances.
fn number_row(
    alloc: Global,
    names: &NameSet<'_>,
    insts: &[Inst],
) -> Result<Items<Option<u32>>, AllocError>
    requires { length names.now < 2 ^ 32 }
    ensures { IfOk result (λ row. row ≡ map (number_by names.now) insts.now) }
{
    let mut row = Vec::with_capacity(alloc, insts.len())?;
    for inst in insts {
        row.push(number_in(names, inst.model.as_slice()))?;
    }
    Ok(Items::from_vec(row))
}

/// The place of a name among the names of the models.
fn number_in(names: &NameSet<'_>, name: &[u8]) -> Option<u32>
    requires { length names.now < 2 ^ 32 }
    ensures { result ≡ position (bytes_eq name.now) names.now }
{
    match names.place_of(name) {
        Some(place) => Some(place as u32),
        None => None,
    }
}

/// Which models are reached from the root.
fn mark_used(
    alloc: Global,
    design: &Design,
    numbers: &[Items<Option<u32>>],
) -> Result<Items<bool>, AllocError>
    requires formed { IsWellFormed design.now }
    requires numbers { numbers.now ≡ instance_numbers design.now }
    ensures { IfOk result (AreReachedMarks design.now) }
{
    let graph = graph_of(alloc, numbers)?;
    let cut = no_marks(alloc, graph.len())?;
    let graph = Digraph { reads: &graph };
    find_reaching(alloc, &graph, cut.as_slice(), design.root)
}

/// Marks, none of which is set.
fn no_marks(alloc: Global, count: usize) -> Result<Vec<bool>, AllocError>
    ensures { IfOk result (λ marks. marks.items ≡ replicate count false) }
{
    Vec::from_elem(alloc, false, count)
}

/// The graph of the models: each reads those of its instances.
fn graph_of(alloc: Global, numbers: &[Items<Option<u32>>]) -> Result<ReadLists, AllocError>
    ensures { IfOk result (λ graph. graph ≡ map some_of numbers.now) }
{
    let mut graph = ReadLists::with_capacity(alloc, numbers.len())?;
    for row in numbers {
        graph.push(known_of(alloc, row.as_slice())?.as_slice())?;
    }
    Ok(graph)
}

/// The numbers that are there.
fn known_of(alloc: Global, row: &[Option<u32>]) -> Result<Items<u32>, AllocError>
    ensures { IfOk result (λ known. known ≡ some_of row.now) }
{
    let mut known = Vec::new(alloc);
    for number in row {
        if let Some(number) = number {
            known.push(*number)?;
        }
    }
    Ok(Items::from_vec(known))
}

/// The numbers of the marks that are set.
fn list_marked(alloc: Global, marks: &[bool]) -> Result<Items<u32>, AllocError>
    requires { length marks.now < 2 ^ 32 }
    ensures { IfOk result (λ numbers. numbers ≡ places_of_true 0 marks.now) }
{
    let mut numbers = Vec::new(alloc);
    for k in 0..marks.len() {
        if marks[k] {
            numbers.push(k as u32)?;
        }
    }
    Ok(Items::from_vec(numbers))
}

impl<'d> Uses<'d> {
    /// The design.
    pub fn design(&self) -> &'d Design
        ensures same { result.now ≡ self.now }
        ensures formed { IsWellFormed self.now }
    {
        self.design
    }

    /// The numbers of the reached models, in the order of the text.
    pub fn reached(&self) -> &[u32]
        ensures { AreReached self.now result.now }
    {
        self.reached.numbers.as_slice()
    }

    /// The number of the model of an instance, by the numbers of the model that has it and of the
    /// instance in that model. `None` where no model has the name that the instance gives, and
    /// where there is no such instance.
    pub fn model_of(&self, model: u32, inst: u32) -> Option<u32>
        ensures { result ≡ instance_number self.now inst model }
    {
        let row = self.numbers.as_slice().get(model as usize)?;
        row.as_slice().get(inst as usize).copied()?
    }
}

impl<'d> Uses<'d> {
    /// The graph of the reached models: each reads the models of its instances.
    pub(crate) fn graph(&self, alloc: Global) -> Result<ReadLists, AllocError>
        ensures used { IfOk result (IsUsedGraph self.now) }
        ensures graph { IfOk result IsGraph }
    {
        keep_marked_rows(
            alloc,
            self.reached.marks.as_slice(),
            self.numbers.as_slice(),
        )
    }

    /// Those of some models that are reached.
    pub(crate) fn keep_reached(
        &self,
        alloc: Global,
        models: &[u32],
    ) -> Result<Items<u32>, AllocError>
        ensures { IfOk result (AreReachedAmong self.now models.now) }
    {
        keep_marked(alloc, self.reached.marks.as_slice(), models)
    }
}

/// For each model, the numbers of the models of its instances where it is marked, and else none.
fn keep_marked_rows(
    alloc: Global,
    marks: &[bool],
    numbers: &[Items<Option<u32>>],
) -> Result<ReadLists, AllocError>
    requires { length marks.now ≡ length numbers.now }
    ensures { IfOk result (λ graph. graph ≡ kept marks.now numbers.now) }
{
    let mut graph = ReadLists::with_capacity(alloc, numbers.len())?;
    for k in 0..numbers.len() {
        graph.push(keep_row(alloc, marks[k], numbers[k].as_slice())?.as_slice())?;
    }
    Ok(graph)
}

/// The numbers that are there, where the mark is set, and else none.
fn keep_row(alloc: Global, mark: bool, row: &[Option<u32>]) -> Result<Items<u32>, AllocError>
    ensures { IfOk result (λ known. known ≡ kept_row mark row.now) }
{
    if mark {
        known_of(alloc, row)
    } else {
        Ok(Items::from_vec(Vec::new(alloc)))
    }
}

/// Those of some numbers whose marks are set.
fn keep_marked(alloc: Global, marks: &[bool], numbers: &[u32]) -> Result<Items<u32>, AllocError>
    ensures { IfOk result (λ kept. kept ≡ filter (flag marks.now) numbers.now) }
{
    let mut kept = Vec::new(alloc);
    for number in numbers {
        if is_marked(marks, *number) {
            kept.push(*number)?;
        }
    }
    Ok(Items::from_vec(kept))
}

/// Whether a mark is set; none is past the last.
fn is_marked(marks: &[bool], number: u32) -> bool
    ensures { result ≡ flag marks.now number }
{
    marks.get(number as usize).copied().unwrap_or(false)
}

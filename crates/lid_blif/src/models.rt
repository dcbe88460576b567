//! The models of a design.

ghost use Rattle.std.specs.Prelude.{◌≡◌, ◌++◌, drop, IfOk, OnOk};
ghost use Rattle.std.specs.List.{AllByRecursion};
ghost use Rattle.lid_blif.specs.Designs.{IsNarrow, cells_of, insts_of, names_of, model_of, models_of, design_of};

use crate::cells::{inst_of, push_cell};
use crate::keyword::Keyword;
use crate::line::{TextLine, push_copies, word_at, words_after};
use crate::words::{is_line, leading_inner};
use lid_base::{Items, Name, copy_name};
use lid_design::{Cell, Design, Inst, Model};
use std::alloc::{AllocError, Global};

fn names_of(
    alloc: Global,
    wanted: Keyword,
    body: &[TextLine<'_, '_>],
) -> Result<Items<Name>, AllocError>
    ensures { IfOk result (λ names. names ≡ names_of wanted body.now) }
{
    let mut names = Vec::new(alloc);
    for line in body {
        if is_line(wanted, line) {
            push_copies(alloc, &words_after(&line.words(), 1), &mut names)?;
        }
    }
    names.shrink_to_fit();
    Ok(Items::from_vec(names))
}

fn cells_of(alloc: Global, body: &[TextLine<'_, '_>]) -> Result<Items<Cell>, AllocError>
    requires { AllByRecursion IsNarrow body.now }
    ensures { IfOk result (λ cells. cells ≡ cells_of body.now) }
{
    let mut cells = Vec::new(alloc);
    for (at, line) in body.iter().enumerate() {
        push_cell(alloc, line, &body[at + 1..], &mut cells)?;
    }
    cells.shrink_to_fit();
    Ok(Items::from_vec(cells))
}

fn insts_of(alloc: Global, body: &[TextLine<'_, '_>]) -> Result<Items<Inst>, AllocError>
    ensures { IfOk result (λ insts. insts ≡ insts_of body.now) }
{
    let mut insts = Vec::new(alloc);
    for line in body {
        if is_line(Keyword::Subckt, line) {
            let inst = inst_of(alloc, line)?;
            insts.push(inst)?;
        }
    }
    insts.shrink_to_fit();
    Ok(Items::from_vec(insts))
}

/// The names that a model lists.
#[derive(Drop)]
struct Ports {
    inputs: Items<Name>,
    outputs: Items<Name>,
    clocks: Items<Name>,
}

fn ports_of(alloc: Global, body: &[TextLine<'_, '_>]) -> Result<Ports, AllocError>
    ensures inputs { IfOk result (λ ports. ports.inputs ≡ names_of Keyword.Inputs body.now) }
    ensures outputs { IfOk result (λ ports. ports.outputs ≡ names_of Keyword.Outputs body.now) }
    ensures clocks { IfOk result (λ ports. ports.clocks ≡ names_of Keyword.Clock body.now) }
{
    let inputs = names_of(alloc, Keyword::Inputs, body)?;
    let outputs = names_of(alloc, Keyword::Outputs, body)?;
    let clocks = names_of(alloc, Keyword::Clock, body)?;
    Ok(Ports {
        inputs,
        outputs,
        clocks,
    })
}

/// The cells and the instances of a model.
#[derive(Drop)]
struct Parts {
    cells: Items<Cell>,
    insts: Items<Inst>,
}

fn parts_of(alloc: Global, body: &[TextLine<'_, '_>]) -> Result<Parts, AllocError>
    requires { AllByRecursion IsNarrow body.now }
    ensures cells { IfOk result (λ parts. parts.cells ≡ cells_of body.now) }
    ensures insts { IfOk result (λ parts. parts.insts ≡ insts_of body.now) }
{
    let cells = cells_of(alloc, body)?;
    let insts = insts_of(alloc, body)?;
    Ok(Parts { cells, insts })
}

#[tactic(auto, unfolding(crate::specs::Designs::model_of))]
fn model_of(alloc: Global, name: &[u8], body: &[TextLine<'_, '_>]) -> Result<Model, AllocError>
    requires { AllByRecursion IsNarrow body.now }
    ensures { IfOk result (λ model. model ≡ model_of name.now body.now) }
{
    let ports = ports_of(alloc, body)?;
    let parts = parts_of(alloc, body)?;
    let name = copy_name(alloc, name)?;
    let Ports {
        inputs,
        outputs,
        clocks,
    } = ports;
    let Parts { cells, insts } = parts;
    Ok(Model {
        name,
        inputs,
        outputs,
        clocks,
        cells,
        insts,
    })
}

fn models_of(alloc: Global, lines: &[TextLine<'_, '_>]) -> Result<Items<Model>, AllocError>
    requires { AllByRecursion IsNarrow lines.now }
    ensures { IfOk result (λ models. models ≡ models_of lines.now) }
{
    let mut models = Vec::new(alloc);
    for (at, line) in lines.iter().enumerate() {
        if is_line(Keyword::Model, line) {
            let body = leading_inner(&lines[at + 1..]);
            let model = model_of(alloc, word_at(&line.words(), 1), body)?;
            models.push(model)?;
        }
    }
    Ok(Items::from_vec(models))
}

/// The design that some lines stand for.
#[tactic(auto, unfolding(crate::specs::Designs::design_of))]
pub fn design_of(alloc: Global, lines: &[TextLine<'_, '_>]) -> Result<Design, AllocError>
    requires { AllByRecursion IsNarrow lines.now }
    ensures { IfOk result (λ design. design ≡ design_of lines.now) }
{
    let models = models_of(alloc, lines)?;
    Ok(Design { models, root: 0 })
}

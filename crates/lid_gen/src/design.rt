//! The making of a design.

ghost use Rattle.std.specs.Prelude.{◌≡◌, ◌⊎◌, ◌≤◌, ◌<◌, ◌+◌, ◌*◌, ◌++◌, ◌∷◌, [], codes, None, Some, IfOk, IfErr, OnOk};
ghost use Rattle.lid_base.specs.Each.{from_each};
ghost use Rattle.lid_gen.specs.declared.fault.GenFault.TheVariants.{Memory};
ghost use Rattle.lid_gen.specs.Draws.{first_state, state_after};
ghost use Rattle.lid_gen.specs.Designs.{input_name, output_name, kind_name, kind_model, shell_at, buffer_at, root_model, generated, size_fault};

use crate::cells::{buffer, kind_cells, two_letters};
use crate::draws::Draws;
use crate::fault::GenFault;
use crate::names::{numbered, numbered_names};
use crate::shells::shell;
use lid_base::{Items, Name, copy_name};
use lid_design::{Cell, Design, Inst, Model};
use std::alloc::{AllocError, Global};

/// No design has more shells.
const MOST_SHELLS: u32 = 2000;

/// The name of a model and the names of its inputs and outputs.
#[derive(Drop)]
struct Ports {
    name: Name,
    inputs: Items<Name>,
    outputs: Items<Name>,
}

/// A model without clocks.
fn model(alloc: Global, ports: Ports, cells: Items<Cell>, insts: Items<Inst>) -> Model
    ensures { result ≡ record { name = ports.name; inputs = ports.inputs; outputs = ports.outputs; clocks = []; cells = cells; insts = insts } }
{
    let Ports {
        name,
        inputs,
        outputs,
    } = ports;
    Model {
        name,
        inputs,
        outputs,
        clocks: Items::from_vec(Vec::new(alloc)),
        cells,
        insts,
    }
}

/// The ports of the model of a kind.
fn kind_ports(alloc: Global, kind: u32) -> Result<Ports, AllocError>
    requires { kind < 4 }
    ensures { IfOk result (λ p. p ≡ record { name = kind_name kind; inputs = codes "a" ∷ codes "b" ∷ []; outputs = codes "q" ∷ codes "r" ∷ [] }) }
{
    let name = numbered(alloc, b"cel", kind)?;
    let inputs = two_letters(alloc, b'a', b'b')?;
    Ok(Ports {
        name,
        inputs,
        outputs: two_letters(alloc, b'q', b'r')?,
    })
}

/// The model of a kind.
fn kind_model(alloc: Global, kind: u32) -> Result<Model, AllocError>
    requires { kind < 4 }
    ensures { IfOk result (λ m. m ≡ kind_model kind) }
{
    let cells = kind_cells(alloc, kind)?;
    let ports = kind_ports(alloc, kind)?;
    Ok(model(alloc, ports, cells, Items::from_vec(Vec::new(alloc))))
}

/// The ports of the root.
fn root_ports(alloc: Global) -> Result<Ports, AllocError>
    ensures { IfOk result (λ p. p ≡ record { name = codes "gen"; inputs = from_each input_name 0 4; outputs = from_each output_name 0 4 }) }
{
    let name = copy_name(alloc, b"gen")?;
    let inputs = numbered_names(alloc, b"x")?;
    Ok(Ports {
        name,
        inputs,
        outputs: numbered_names(alloc, b"y")?,
    })
}

/// The instances of the root. Each draws its kind, and the place of the net of its second input.
fn root_insts(alloc: Global, shells: u32, draws: &mut Draws) -> Result<Items<Inst>, AllocError>
    requires { shells ≤ 2000 }
    ensures insts { IfOk result (λ insts. insts ≡ from_each (shell_at draws.old.state shells) 0 shells) }
    ensures state { OnOk result (draws.new.state ≡ state_after (2 * shells) draws.old.state) }
{
    let mut insts = Vec::with_capacity(alloc, shells as usize)?;
    for i in 0..shells {
        let kind = draws.draw(4);
        let place = draws.draw(4 + 2 * shells);
        insts.push(shell(alloc, i, kind, place)?)?;
    }
    Ok(Items::from_vec(insts))
}

/// The cells of the root. Each output draws the place of its net.
fn root_cells(alloc: Global, shells: u32, draws: &mut Draws) -> Result<Items<Cell>, AllocError>
    requires { shells ≤ 2000 }
    ensures { IfOk result (λ cells. cells ≡ from_each (buffer_at draws.old.state shells) 0 4) }
{
    let mut cells = Vec::with_capacity(alloc, 4)?;
    for j in 0..4u32 {
        let place = draws.draw(4 + 2 * shells);
        cells.push(buffer(alloc, j, place)?)?;
    }
    Ok(Items::from_vec(cells))
}

/// The root.
fn root_model(alloc: Global, shells: u32, mut draws: Draws) -> Result<Model, AllocError>
    requires { shells ≤ 2000 }
    ensures { IfOk result (λ m. m ≡ root_model draws.state shells) }
{
    let insts = root_insts(alloc, shells, &mut draws)?;
    let cells = root_cells(alloc, shells, &mut draws)?;
    let ports = root_ports(alloc)?;
    Ok(model(alloc, ports, cells, insts))
}

/// Appends the models of the four kinds.
fn push_kinds(alloc: Global, models: &mut Vec<Model>) -> Result<(), AllocError>
    ensures { OnOk result (models.new.items ≡ models.old.items ++ from_each kind_model 0 4) }
{
    for kind in 0..4u32 {
        models.push(kind_model(alloc, kind)?)?;
    }
    Ok(())
}

/// The design of a seed.
#[tactic(auto, unfolding(crate::specs::Designs::generated))]
fn generate(alloc: Global, seed: u64, shells: u32) -> Result<Design, AllocError>
    requires { shells ≤ 2000 }
    ensures { IfOk result (λ d. d ≡ generated seed shells) }
{
    let mut models = Vec::with_capacity(alloc, 5)?;
    models.push(root_model(alloc, shells, Draws::begin(seed))?)?;
    push_kinds(alloc, &mut models)?;
    Ok(Design {
        models: Items::from_vec(models),
        root: 0,
    })
}

/// The design of a seed with 1 to 2,000 shells.
///
/// Its root `gen` has the inputs `x0` to `x3`, the outputs `y0` to `y3` and an instance for each shell, of
/// one of the models `cel0` to `cel3`. The first input of each instance is bound to the first output of
/// the one before it; what its second input is bound to is drawn, as are its model and the nets of the
/// outputs.
///
/// # Errors
/// `Size` exactly for 0 shells and for more than 2,000, with their number. `Memory` where there is no
/// memory.
pub fn make(alloc: Global, seed: u64, shells: u32) -> Result<Design, GenFault>
    ensures ok { IfOk result (λ d. (size_fault shells ≡ None) × (d ≡ generated seed shells)) }
    ensures err { IfErr result (λ e. (size_fault shells ≡ Some e) ⊎ ((size_fault shells ≡ None) × (e ≡ Memory))) }
{
    if shells == 0 || shells > MOST_SHELLS {
        return Err(GenFault::Size { shells });
    }
    match generate(alloc, seed, shells) {
        Ok(design) => Ok(design),
        Err(_) => Err(GenFault::Memory),
    }
}

ghost use Rattle.std.specs.Prelude.{◌≡◌, ◌≤◌, ◌<◌, ◌+◌, ℕ, [], Some, length, map, slice_get, IfOk, OnOk};
ghost use Rattle.std.specs.List.{All};
ghost use Rattle.lid_design.specs.Models.{insts_of, IsReached};
ghost use Rattle.lid_check_elab.specs.Elaborations.{shown_driver};
ghost use Rattle.lid_check_elab.specs.Numbers.{offset_of};
ghost use Rattle.lid_check_elab.specs.Parts.{AreSizes, output_sets, places_in_inst, ArePicked, IsTemplate, AreTemplates};
ghost use Rattle.lid_check_elab.specs.Templates.{shown_local, placed_driver, seen_around, IsSmallLocal};

use crate::bound::actuals_of;
use crate::driven::{collect_outputs, driven_of};
use crate::driver::ColumnDriver;
use crate::picks::picks_of;
use crate::sizes::{find_sizes, offsets_of};
use lid_base::Items;
use lid_check_drivers::Judged;
use lid_check_names::NameSet;
use std::alloc::{AllocError, Global};

/// What drives a net inside its model. Nets are told by their places among the nets of a model.
#[derive(Drop)]
pub enum LocalDriver {
    /// A data input of the model, by its place among them.
    Input(u32),
    /// A latch, that begins with the bit `first`.
    Latch {
        first: bool,
        input: u32,
    },
    /// The cover of a cell of the model, with its inputs in order.
    Cover {
        model: u32,
        cell: u32,
        inputs: Items<u32>,
    },
    /// A net of the model of an instance, that is bound to this one.
    Connection {
        inst: u32,
        net: u32,
    },
}

/// What is known of a model before it is placed.
#[derive(Drop)]
pub struct Template {
    /// All that drives nets of the model.
    pub locals: Items<LocalDriver>,
    /// For each net, the place of what drives it among `locals`.
    pub picks: Items<u32>,
    /// For each instance, how many columns of the model and of earlier instances stand before it.
    pub offsets: Items<u32>,
    /// For each instance, the nets that its data inputs are bound to.
    pub actuals: Items<Items<u32>>,
}

/// From where the columns of a scope are counted.
#[derive(Clone, Copy)]
pub struct Base<'t> {
    /// The first column of the scope.
    pub start: u32,
    /// For each instance of its model, how many columns stand between the first and those of the instance.
    pub offsets: &'t [u32],
    /// In an instance, the first column of the scope around, and the nets there that its inputs are bound to.
    pub around: Option<(u32, &'t [u32])>,
}

/// What gives a column its bit, from what drives its net in its model.
pub fn place_driver(
    alloc: Global,
    judged: &Judged<'_>,
    base: Base<'_>,
    local: &LocalDriver,
) -> Result<ColumnDriver, AllocError>
    requires start { base.start ≤ 1048576 }
    requires small { IsSmallLocal base.offsets.now (seen_around base.around) (shown_local judged.now local.now) }
    ensures { IfOk result (λ driver. shown_driver judged.now driver
        ≡ placed_driver base.entry.start base.entry.offsets.now (seen_around base.entry.around) (shown_local judged.now local.now)) }
{
    let Base {
        start,
        offsets,
        around,
    } = base;
    let _ = judged;
    Ok(match local {
        LocalDriver::Input(place) => match around {
            None => ColumnDriver::Input(*place),
            Some((first, actuals)) => ColumnDriver::Connection(first + actuals[*place as usize]),
        },
        LocalDriver::Latch { first, input } => ColumnDriver::Latch {
            first: *first,
            input: start + *input,
        },
        LocalDriver::Cover {
            model,
            cell,
            inputs,
        } => ColumnDriver::Cover {
            model: *model,
            cell: *cell,
            inputs: shift_all(alloc, start, inputs.as_slice())?,
        },
        LocalDriver::Connection { inst, net } => {
            ColumnDriver::Connection(start + (offsets[*inst as usize] + *net))
        }
    })
}

/// Some numbers, each greater by `start`.
fn shift_all(alloc: Global, start: u32, numbers: &[u32]) -> Result<Items<u32>, AllocError>
    requires start { start ≤ 1048576 }
    requires small { All (λ n. n ≤ 1048576) numbers.now }
    ensures { IfOk result (λ shifted. shifted ≡ map (λ n. start + n) numbers.now) }
{
    let mut shifted = Vec::with_capacity(alloc, numbers.len())?;
    for number in numbers {
        shifted.push(start + *number)?;
    }
    Ok(Items::from_vec(shifted))
}

/// What is known of each reached model before it is placed, by the model's number.
pub fn find_templates(alloc: Global, judged: &Judged<'_>) -> Result<Items<Template>, AllocError>
    ensures { IfOk result (AreTemplates judged.now) }
{
    let sizes = find_sizes(alloc, judged)?;
    let outputs = collect_outputs(alloc, judged.design().models.as_slice())?;
    let mut templates = Vec::with_capacity(alloc, sizes.as_slice().len())?;
    push_templates(
        alloc,
        judged,
        sizes.as_slice(),
        outputs.as_slice(),
        &mut templates,
    )?;
    Ok(Items::from_vec(templates))
}

/// Pushes what is known of each model before it is placed, where there is nothing yet.
fn push_templates(
    alloc: Global,
    judged: &Judged<'_>,
    sizes: &[Option<u32>],
    outputs: &[NameSet<'_>],
    templates: &mut Vec<Template>,
) -> Result<(), AllocError>
    requires sizes { AreSizes judged.now (IsReached judged.now) sizes.now }
    requires outputs { outputs.now ≡ output_sets judged.now.models }
    requires none { templates.old.items ≡ [] }
    ensures { OnOk result (AreTemplates judged.now templates.new.items) }
{
    let _ = judged.design();
    for model in 0..sizes.len() as u32 {
        let template = template_of(alloc, judged, sizes, outputs, model)?;
        templates.push(template)?;
    }
    Ok(())
}

/// What is known of a model before it is placed; nothing where it is not reached.
fn template_of(
    alloc: Global,
    judged: &Judged<'_>,
    sizes: &[Option<u32>],
    outputs: &[NameSet<'_>],
    model: u32,
) -> Result<Template, AllocError>
    requires sizes { AreSizes judged.now (IsReached judged.now) sizes.now }
    requires outputs { outputs.now ≡ output_sets judged.now.models }
    requires below { model < length sizes.now }
    ensures { IfOk result (λ t. IsReached judged.now model → IsTemplate judged.now model t) }
{
    let Some(_) = sizes[model as usize] else {
        return Ok(no_template(alloc));
    };
    let nets = describe_nets(alloc, judged, outputs, model)?;
    let insts = describe_insts(alloc, judged, sizes, model)?;
    Ok(Template {
        locals: nets.locals,
        picks: nets.picks,
        offsets: insts.offsets,
        actuals: insts.actuals,
    })
}

/// What is known of the nets of a model.
#[derive(Drop)]
struct Nets {
    locals: Items<LocalDriver>,
    picks: Items<u32>,
}

/// What drives the nets of a reached model, and which of it drives each.
fn describe_nets(
    alloc: Global,
    judged: &Judged<'_>,
    outputs: &[NameSet<'_>],
    model: u32,
) -> Result<Nets, AllocError>
    requires reached { IsReached judged.now model }
    requires outputs { outputs.now ≡ output_sets judged.now.models }
    ensures { IfOk result (λ nets. ArePicked judged.now model nets.locals nets.picks) }
{
    let _ = judged.design();
    let driven = driven_of(alloc, judged, outputs, model)?;
    let picks = picks_of(alloc, judged, driven.nets.as_slice(), model)?;
    Ok(Nets {
        locals: Items::from_vec(driven.locals),
        picks,
    })
}

/// What is known of the instances of a model.
#[derive(Drop)]
struct Insts {
    offsets: Items<u32>,
    actuals: Items<Items<u32>>,
}

/// Where the columns of the instances of a reached model begin, and the nets that their data inputs
/// are bound to.
fn describe_insts(
    alloc: Global,
    judged: &Judged<'_>,
    sizes: &[Option<u32>],
    model: u32,
) -> Result<Insts, AllocError>
    requires reached { IsReached judged.now model }
    requires sizes { AreSizes judged.now (IsReached judged.now) sizes.now }
    ensures few { IfOk result (λ insts. length insts.offsets ≡ length (insts_of judged.now model)) }
    ensures each { IfOk result (λ insts. (i o : ℕ) → slice_get insts.offsets i ≡ Some o → o ≡ offset_of judged.now model i) }
    ensures actuals { IfOk result (λ insts. insts.actuals ≡ map (places_in_inst judged.now model) (insts_of judged.now model)) }
{
    let offsets = offsets_of(alloc, judged, sizes, model)?;
    let actuals = actuals_of(alloc, judged, model)?;
    Ok(Insts { offsets, actuals })
}

/// A template of nothing.
fn no_template(alloc: Global) -> Template {
    Template {
        locals: Items::from_vec(Vec::new(alloc)),
        picks: Items::from_vec(Vec::new(alloc)),
        offsets: Items::from_vec(Vec::new(alloc)),
        actuals: Items::from_vec(Vec::new(alloc)),
    }
}

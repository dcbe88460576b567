ghost use Rattle.std.specs.Prelude.{◌≡◌, ◌≢◌, ◌<◌, ◌^◌, ◌&&◌, ℕ, [], Some, length, slice_get, slice_index_or, IfOk, OnOk};
ghost use Rattle.std.specs.List.{list_any};
ghost use Rattle.std.specs.Str.{bytes_eq};
ghost use Rattle.lid_design.specs.Columns.{is_among, is_clocked_by, is_own_clock};
ghost use Rattle.lid_design.specs.Models.{insts_of};
ghost use Rattle.lid_design.specs.WellFormed.{IsWellFormed};
ghost use Rattle.lid_check_names.specs.Names.{texts};
ghost use Rattle.lid_check_hierarchy.specs.Clocks.{binds_to, inst_binds, in_sets, is_clock_by, HasClocks, HaveClocks, GrowsBy};
ghost use Rattle.lid_check_hierarchy.specs.Surveys.{IsModelOrder};

use crate::uses::Uses;
use lid_base::{Items, Name};
use lid_check_names::{NameSet, push_name};
use lid_design::{Bind, Cell, Inst, Model};
use std::alloc::{AllocError, Global};

/// The clock names of a model, from those of the models of its instances.
pub fn clocks_of<'d>(
    alloc: Global,
    uses: &Uses<'d>,
    sets: &[NameSet<'d>],
    model: u32,
) -> Result<NameSet<'d>, AllocError>
    requires exists { model < length uses.now.models }
    requires sets { length sets.now ≡ length uses.now.models }
    ensures { IfOk result (HasClocks uses.now sets.now model) }
{
    let mut list = Vec::new(alloc);
    add_clocks(&mut list, uses, sets, model)?;
    NameSet::collect(alloc, list.as_slice())
}

/// Appends the clock names of a model, from those of the models of its instances.
fn add_clocks<'d>(
    list: &mut Vec<&'d [u8]>,
    uses: &Uses<'d>,
    sets: &[NameSet<'d>],
    model: u32,
) -> Result<(), AllocError>
    requires exists { model < length uses.now.models }
    requires sets { length sets.now ≡ length uses.now.models }
    ensures { OnOk result (GrowsBy (is_clock_by uses.now (in_sets sets.now) model) (texts list.old.items) (texts list.new.items)) }
{
    let body = &uses.design().models.as_slice()[model as usize];
    add_own(list, body)?;
    add_all_bound(list, uses, sets, model, body.insts.as_slice())
}

/// Appends the names that a model itself makes clock names.
fn add_own<'d>(list: &mut Vec<&'d [u8]>, model: &'d Model) -> Result<(), AllocError>
    ensures { OnOk result (GrowsBy (is_own_clock model.now) (texts list.old.items) (texts list.new.items)) }
{
    add_names(list, model.clocks.as_slice())?;
    add_controls(list, model.cells.as_slice())
}

/// Appends what the instances of a model bind to clock names of their models.
fn add_all_bound<'d>(
    list: &mut Vec<&'d [u8]>,
    uses: &Uses<'d>,
    sets: &[NameSet<'d>],
    model: u32,
    insts: &'d [Inst],
) -> Result<(), AllocError>
    requires sets { length sets.now ≡ length uses.now.models }
    requires insts { insts.now ≡ insts_of uses.now model }
    requires few { length insts.now < 2 ^ 32 }
    ensures { OnOk result (GrowsBy (λ net. list_any (inst_binds uses.now (in_sets sets.now) net) insts.now) (texts list.old.items) (texts list.new.items)) }
{
    for i in 0..insts.len() as u32 {
        add_bound(list, uses, sets, model, i, &insts[i as usize])?;
    }
    Ok(())
}

/// Appends some names.
fn add_names<'d>(list: &mut Vec<&'d [u8]>, names: &'d [Name]) -> Result<(), AllocError>
    ensures { OnOk result (GrowsBy (λ net. is_among net names.now) (texts list.old.items) (texts list.new.items)) }
{
    for name in names {
        add_name(list, name)?;
    }
    Ok(())
}

/// Appends a name.
fn add_name<'d>(list: &mut Vec<&'d [u8]>, name: &'d Name) -> Result<(), AllocError>
    ensures { OnOk result (GrowsBy (λ net. bytes_eq net name.now) (texts list.old.items) (texts list.new.items)) }
{
    push_name(list, name)
}

/// Appends the controls of latches.
fn add_controls<'d>(list: &mut Vec<&'d [u8]>, cells: &'d [Cell]) -> Result<(), AllocError>
    ensures { OnOk result (GrowsBy (λ net. list_any (is_clocked_by net) cells.now) (texts list.old.items) (texts list.new.items)) }
{
    for cell in cells {
        add_control(list, cell)?;
    }
    Ok(())
}

/// Appends the control of a cell, where it has one.
fn add_control<'d>(list: &mut Vec<&'d [u8]>, cell: &'d Cell) -> Result<(), AllocError>
    ensures { OnOk result (GrowsBy (λ net. is_clocked_by net cell.now) (texts list.old.items) (texts list.new.items)) }
{
    match cell {
        Cell::Latch {
            control: Some(control),
            ..
        } => add_name(list, control),
        _ => Ok(()),
    }
}

/// Appends what an instance binds to clock names of its model.
fn add_bound<'d>(
    list: &mut Vec<&'d [u8]>,
    uses: &Uses<'d>,
    sets: &[NameSet<'d>],
    model: u32,
    i: u32,
    inst: &'d Inst,
) -> Result<(), AllocError>
    requires sets { length sets.now ≡ length uses.now.models }
    requires inst { slice_get (insts_of uses.now model) i ≡ Some inst.now }
    ensures { OnOk result (GrowsBy (λ net. inst_binds uses.now (in_sets sets.now) net inst.now) (texts list.old.items) (texts list.new.items)) }
{
    match uses.model_of(model, i) {
        Some(sub) => add_actuals(list, &sets[sub as usize], inst.binds.as_slice()),
        None => Ok(()),
    }
}

/// Appends the actuals that are bound to formals of a set.
fn add_actuals<'d>(
    list: &mut Vec<&'d [u8]>,
    formals: &NameSet<'d>,
    binds: &'d [Bind],
) -> Result<(), AllocError>
    ensures { OnOk result (GrowsBy (λ net. binds_to (λ formal. is_among formal formals.now) net binds.now) (texts list.old.items) (texts list.new.items)) }
{
    for bind in binds {
        add_actual(list, formals, bind)?;
    }
    Ok(())
}

/// Appends the actual of a binding whose formal is in a set.
fn add_actual<'d>(
    list: &mut Vec<&'d [u8]>,
    formals: &NameSet<'d>,
    bind: &'d Bind,
) -> Result<(), AllocError>
    ensures { OnOk result (GrowsBy (λ net. bytes_eq bind.now.actual net && is_among bind.now.formal formals.now) (texts list.old.items) (texts list.new.items)) }
{
    if formals.has(bind.formal.as_slice()) {
        add_name(list, &bind.actual)
    } else {
        Ok(())
    }
}

/// The clock names of the models of an order, each after those of its instances; no names of other
/// models.
pub fn find_clocks<'d>(
    alloc: Global,
    uses: &Uses<'d>,
    order: &[u32],
) -> Result<Items<NameSet<'d>>, AllocError>
    requires { IsModelOrder uses.now order.now }
    ensures { IfOk result (HaveClocks uses.now order.now) }
{
    let mut sets = no_names(alloc, uses.design().models.len())?;
    put_clocks(alloc, &mut sets, uses, order)?;
    Ok(Items::from_vec(sets))
}

/// Puts the clock names of the models of an order in their places, each after those of its
/// instances.
fn put_clocks<'d>(
    alloc: Global,
    sets: &mut Vec<NameSet<'d>>,
    uses: &Uses<'d>,
    order: &[u32],
) -> Result<(), AllocError>
    requires formed { IsWellFormed uses.now }
    requires order { IsModelOrder uses.now order.now }
    requires size { length sets.old.items ≡ length uses.now.models }
    ensures { OnOk result (HaveClocks uses.now order.now sets.new.items) }
{
    for model in order {
        let set = clocks_of(alloc, uses, sets.as_slice(), *model)?;
        put_at(sets, *model as usize, set)?;
    }
    Ok(())
}

/// Puts a set in the place of another.
fn put_at<'d>(sets: &mut Vec<NameSet<'d>>, place: usize, set: NameSet<'d>) -> Result<(), AllocError>
    requires { place < length sets.old.items }
    ensures size { OnOk result (length sets.new.items ≡ length sets.old.items) }
    ensures here { OnOk result (slice_index_or sets.new.items place [] ≡ set.entry) }
    ensures others { OnOk result ((k : ℕ) → k ≢ place → slice_index_or sets.new.items k [] ≡ slice_index_or sets.old.items k []) }
{
    sets.push(set)?;
    let _ = sets.swap_remove(place);
    Ok(())
}

/// So many empty sets.
fn no_names<'d>(alloc: Global, count: usize) -> Result<Vec<NameSet<'d>>, AllocError>
    ensures { IfOk result (λ sets. length sets.items ≡ count) }
{
    let mut sets = Vec::with_capacity(alloc, count)?;
    for _ in 0..count {
        sets.push(NameSet::new(alloc))?;
    }
    Ok(sets)
}

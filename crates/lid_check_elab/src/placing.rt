//! Drivers are placed: scope by scope, each gets what its model tells of its nets.

ghost use Rattle.std.specs.Prelude.{◌≡◌, ◌≤◌, ◌<◌, ◌++◌, ◌+◌, ℕ, List, [], Some, length, map, reverse, take, slice_get, IfOk, OnOk};
ghost use Rattle.std.specs.List.{All};
ghost use Rattle.lid_design.specs.Models.{insts_of};
ghost use Rattle.lid_design.specs.Elaboration.{model_nets, columns};
ghost use Rattle.lid_check_elab.specs.Numbers.{over_insts, size_of, offset_of, weight_of};
ghost use Rattle.lid_check_elab.specs.Elaborations.{shown_driver};
ghost use Rattle.lid_check_elab.specs.Templates.{seen_around};
ghost use Rattle.lid_check_elab.specs.Scopes.{picked_driver, IsSmallAt, ArePlaced, AreNext, IsScopeAt, IsOuter, weights};
ghost use Rattle.lid_check_elab.specs.Parts.{HasOffsets, IsTemplate, AreTemplates};

use crate::driver::ColumnDriver;
use crate::template::{Base, LocalDriver, Template, place_driver};
use lid_base::Items;
use lid_check_drivers::Judged;
use std::alloc::{AllocError, Global};

/// A scope of the elaboration, which is the root or an instance in it: its model and the number of its
/// first column.
#[derive(Clone, Copy)]
pub struct Scope {
    pub model: u32,
    pub start: u32,
    /// The instance that it is; none at the root.
    pub around: Option<Around>,
}

/// The instance of a scope that another scope is.
#[derive(Clone, Copy)]
pub struct Around {
    pub model: u32,
    pub start: u32,
    pub inst: u32,
}

/// Pushes what gives the columns of a scope their bits.
pub fn push_drivers(
    alloc: Global,
    judged: &Judged<'_>,
    drivers: &mut Vec<ColumnDriver>,
    base: Base<'_>,
    locals: &[LocalDriver],
    picks: &[u32],
) -> Result<(), AllocError>
    requires start { base.start ≤ 1048576 }
    requires picks { All (λ pick. pick < length locals.now) picks.now }
    requires small { All (λ pick. IsSmallAt judged.now base.offsets.now (seen_around base.around) (slice_get locals.now pick)) picks.now }
    ensures { OnOk result (map (shown_driver judged.now) drivers.new.items ≡ map (shown_driver judged.now) drivers.old.items
        ++ map (picked_driver judged.now base.entry.start base.entry.offsets.now (seen_around base.entry.around) locals.now) picks.now) }
{
    drivers.reserve(picks.len())?;
    for pick in picks {
        let local = &locals[*pick as usize];
        drivers.push(place_driver(alloc, judged, base, local)?)?;
    }
    Ok(())
}

/// Pushes what gives the columns of a scope their bits, where the columns before it have theirs.
pub fn place_scope(
    alloc: Global,
    judged: &Judged<'_>,
    templates: &[Template],
    drivers: &mut Vec<ColumnDriver>,
    scope: Scope,
) -> Result<(), AllocError>
    requires templates { AreTemplates judged.now templates.now }
    requires there { (path : List ℕ) × IsScopeAt judged.now path scope }
    requires next { scope.start ≡ length drivers.now.items }
    requires before { ArePlaced judged.now (map (shown_driver judged.now) drivers.now.items) }
    ensures after { OnOk result (ArePlaced judged.now (map (shown_driver judged.now) drivers.new.items)) }
    ensures long { OnOk result (length drivers.new.items ≡ length drivers.old.items + length (model_nets judged.now scope.model)) }
{
    let _ = judged.design();
    let template = scope_template(judged, templates, scope);
    let around = around_of(judged, templates, scope);
    let base = Base {
        start: scope.start,
        offsets: template.offsets.as_slice(),
        around,
    };
    push_drivers(
        alloc,
        judged,
        drivers,
        base,
        template.locals.as_slice(),
        template.picks.as_slice(),
    )
}

/// What is known of the model of a scope.
fn scope_template<'t>(judged: &Judged<'_>, templates: &'t [Template], scope: Scope) -> &'t Template
    requires templates { AreTemplates judged.now templates.now }
    requires there { (path : List ℕ) × IsScopeAt judged.now path scope }
    ensures { IsTemplate judged.now scope.model result.now }
{
    let _ = judged;
    &templates[scope.model as usize]
}

/// What stands around a scope: the first column of the scope around, and the nets there that the
/// inputs are bound to. `None` at the root.
fn around_of<'t>(
    judged: &Judged<'_>,
    templates: &'t [Template],
    scope: Scope,
) -> Option<(u32, &'t [u32])>
    requires templates { AreTemplates judged.now templates.now }
    requires there { (path : List ℕ) × IsScopeAt judged.now path scope }
    ensures { (path : List ℕ) → IsScopeAt judged.now path scope → IsOuter judged.now path scope.model (seen_around result) }
{
    let _ = judged;
    match scope.around {
        None => None,
        Some(around) => {
            let outer = &templates[around.model as usize];
            let actuals = &outer.actuals.as_slice()[around.inst as usize];
            Some((around.start, actuals.as_slice()))
        }
    }
}

/// Pushes the scopes of the instances of a scope, the last first.
fn push_instances(
    judged: &Judged<'_>,
    offsets: &[u32],
    scope: Scope,
    stack: &mut Vec<Scope>,
) -> Result<(), AllocError>
    requires offsets { HasOffsets judged.now scope.model offsets.now }
    requires there { (path : List ℕ) × IsScopeAt judged.now path scope }
    requires after { AreNext judged.now (scope.start + size_of judged.now scope.model) (reverse stack.now.items) }
    ensures next { OnOk result (AreNext judged.now (scope.start + length (model_nets judged.now scope.model)) (reverse stack.new.items)) }
    ensures lighter { OnOk result (weights judged.now (reverse stack.new.items) + 1
        ≡ weights judged.now (reverse stack.old.items) + weight_of judged.now scope.model) }
{
    let _ = judged.design();
    let mut i = offsets.len();
    while i > 0 {
        i -= 1;
        push_instance(judged, offsets, scope, i, stack)?;
    }
    Ok(())
}

/// Pushes the scope of an instance of a scope, by its number there.
fn push_instance(
    judged: &Judged<'_>,
    offsets: &[u32],
    scope: Scope,
    i: usize,
    stack: &mut Vec<Scope>,
) -> Result<(), AllocError>
    requires offsets { HasOffsets judged.now scope.model offsets.now }
    requires there { (path : List ℕ) × IsScopeAt judged.now path scope }
    requires exists { i < length offsets.now }
    requires after { AreNext judged.now (scope.start + offset_of judged.now scope.model (i + 1)) (reverse stack.now.items) }
    ensures next { OnOk result (AreNext judged.now (scope.start + offset_of judged.now scope.model i) (reverse stack.new.items)) }
    ensures heavier { OnOk result (weights judged.now (reverse stack.new.items) + over_insts judged.now (weight_of judged.now)
        (take i (insts_of judged.now scope.model))
        ≡ weights judged.now (reverse stack.old.items) + over_insts judged.now (weight_of judged.now)
        (take (i + 1) (insts_of judged.now scope.model))) }
{
    let _ = judged.design();
    let inst = i as u32;
    if let Some(model) = judged.model_of(scope.model, inst) {
        let around = Around {
            model: scope.model,
            start: scope.start,
            inst,
        };
        stack.push(Scope {
            model,
            start: scope.start + offsets[i],
            around: Some(around),
        })?;
    }
    Ok(())
}

/// Works through a scope: pushes what gives its columns their bits, and the scopes of its instances.
fn visit(
    alloc: Global,
    judged: &Judged<'_>,
    templates: &[Template],
    drivers: &mut Vec<ColumnDriver>,
    stack: &mut Vec<Scope>,
    scope: Scope,
) -> Result<(), AllocError>
    requires templates { AreTemplates judged.now templates.now }
    requires before { ArePlaced judged.now (map (shown_driver judged.now) drivers.now.items) }
    requires there { (path : List ℕ) × IsScopeAt judged.now path scope }
    requires start { scope.start ≡ length drivers.now.items }
    requires rest { AreNext judged.now (scope.start + size_of judged.now scope.model) (reverse stack.now.items) }
    ensures after { OnOk result (ArePlaced judged.now (map (shown_driver judged.now) drivers.new.items)) }
    ensures next { OnOk result (AreNext judged.now (length drivers.new.items) (reverse stack.new.items)) }
    ensures lighter { OnOk result (weights judged.now (reverse stack.new.items)
        < weights judged.now (reverse stack.old.items) + weight_of judged.now scope.model) }
{
    let offsets = scope_template(judged, templates, scope).offsets.as_slice();
    place_scope(alloc, judged, templates, drivers, scope)?;
    push_instances(judged, offsets, scope, stack)
}

/// What gives each column its bit, in order, by what is known of the models.
pub fn place_all(
    alloc: Global,
    judged: &Judged<'_>,
    templates: &[Template],
) -> Result<Items<ColumnDriver>, AllocError>
    requires { AreTemplates judged.now templates.now }
    ensures written { IfOk result (λ drivers. ArePlaced judged.now (map (shown_driver judged.now) drivers)) }
    ensures whole { IfOk result (λ drivers. length drivers ≡ length (columns judged.now)) }
{
    let mut drivers = Vec::new(alloc);
    push_all(alloc, judged, templates, &mut drivers)?;
    Ok(Items::from_vec(drivers))
}

/// Pushes what gives each column its bit, in order, where there is nothing yet.
fn push_all(
    alloc: Global,
    judged: &Judged<'_>,
    templates: &[Template],
    drivers: &mut Vec<ColumnDriver>,
) -> Result<(), AllocError>
    requires templates { AreTemplates judged.now templates.now }
    requires none { drivers.old.items ≡ [] }
    ensures written { OnOk result (ArePlaced judged.now (map (shown_driver judged.now) drivers.new.items)) }
    ensures whole { OnOk result (length drivers.new.items ≡ length (columns judged.now)) }
{
    let mut stack = Vec::new(alloc);
    stack.push(Scope {
        model: judged.design().root,
        start: 0,
        around: None,
    })?;
    while let Some(scope) = stack.pop() {
        visit(alloc, judged, templates, drivers, &mut stack, scope)?;
    }
    Ok(())
}

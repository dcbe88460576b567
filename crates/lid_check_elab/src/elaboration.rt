ghost use Rattle.std.specs.Prelude.{◌≡◌, ◌≤◌, length, map, IfOk};
ghost use Rattle.lid_check_elab.specs.Elaborations.{shown_driver, IsElaborated};
ghost use Rattle.lid_check_elab.specs.Parts.{AreTemplates};

use crate::driver::ColumnDriver;
use crate::placing::place_all;
use crate::template::{Template, find_templates};
use lid_base::Items;
use lid_check_drivers::Judged;
use std::alloc::{AllocError, Global};
use std::marker::Model;

/// The columns of a design in order: by the paths of their models, a path before its extensions and
/// instances in order, and at a path by the first appearance of their names.
#[derive(Drop)]
pub struct Columns {
    /// What drives each column.
    pub drivers: Items<ColumnDriver>,
    /// For each instance of the root, the number of its first column.
    pub starts: Items<u32>,
}

/// A design with its columns. A contract sees the design, what drives each column, and where the
/// columns of the instances of the root start.
#[derive(Drop)]
pub struct Elaboration<'d> {
    judged: Judged<'d>,
    columns: Columns,
}

impl<'d> Model for Elaboration<'d> {
    ghost use Rattle.std.specs.Prelude.{map};
    ghost use Rattle.lid_check_elab.specs.Elaborations.{shown_driver, IsElaborated};
    ghost use Rattle.lid_check_elab.specs.Elaborated.{Elaborated};

    ghost Value = { Elaborated };

    ghost view = { λ e. record { design = e.judged; drivers = e.columns.drivers; starts = e.columns.starts } };

    ghost invariant = { λ e. IsElaborated e.judged (map (shown_driver e.judged) e.columns.drivers) e.columns.starts };
}

impl<'d> Elaboration<'d> {
    /// The design.
    pub fn judged(&self) -> &Judged<'d>
        ensures same { result.now ≡ self.now.design }
        ensures elaborated { IsElaborated self.now.design (map (shown_driver self.now.design) self.now.drivers) self.now.starts }
        ensures few { length self.now.drivers ≤ 1048576 }
    {
        let _ = self.judged.design();
        &self.judged
    }

    /// What drives each column.
    pub fn drivers(&self) -> &[ColumnDriver]
        ensures { result.now ≡ self.now.drivers }
    {
        self.columns.drivers.as_slice()
    }

    /// For each instance of the root, the number of its first column.
    pub fn starts(&self) -> &[u32]
        ensures { result.now ≡ self.now.starts }
    {
        self.columns.starts.as_slice()
    }

    /// The columns alone.
    pub fn into_columns(self) -> Columns
        ensures drivers { result.drivers ≡ self.entry.drivers }
        ensures starts { result.starts ≡ self.entry.starts }
    {
        let Elaboration { columns, .. } = self;
        columns
    }
}

/// Numbers the columns of a design that meets the conditions on models.
pub fn elaborate<'d>(alloc: Global, judged: Judged<'d>) -> Result<Elaboration<'d>, AllocError>
    ensures { IfOk result (λ e. e.design ≡ judged.entry) }
{
    let templates = find_templates(alloc, &judged)?;
    elaborate_by(alloc, judged, templates.as_slice())
}

/// Numbers the columns of a design, by what is known of its models.
fn elaborate_by<'d>(
    alloc: Global,
    judged: Judged<'d>,
    templates: &[Template],
) -> Result<Elaboration<'d>, AllocError>
    requires { AreTemplates judged templates.now }
    ensures { IfOk result (λ e. e.design ≡ judged.entry) }
{
    let root = &templates[judged.design().root as usize];
    let starts = copy_all(alloc, root.offsets.as_slice())?;
    let drivers = place_all(alloc, &judged, templates)?;
    let columns = Columns { drivers, starts };
    Ok(Elaboration { judged, columns })
}

/// Some numbers once more.
fn copy_all(alloc: Global, numbers: &[u32]) -> Result<Items<u32>, AllocError>
    ensures { IfOk result (λ copied. copied ≡ numbers.now) }
{
    Ok(Items::from_vec(numbers.to_vec(alloc)?))
}

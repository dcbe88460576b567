//! The pen that writes cells.

ghost use Rattle.std.specs.Prelude.{◌≡◌};
ghost use Rattle.lid_emit_cells.specs.Drafts.{blank};

use crate::names::Naming;
use lid_design::Cell;
use std::alloc::Global;
use std::marker::Model;

/// What cells are written with: memory, the names of wires, and the cells so far. A contract sees a draft.
#[derive(Drop)]
pub(crate) struct Pen<'a> {
    pub(crate) alloc: Global,
    pub(crate) naming: Naming<'a>,
    pub(crate) cells: Vec<Cell>,
}

impl<'a> Model for Pen<'a> {
    ghost use Rattle.lid_emit_cells.specs.Drafts.{Draft};

    ghost Value = { Draft };

    ghost view = { λ p. record { inputs = p.naming.inputs.now; outputs = p.naming.outputs.now; prefix = p.naming.prefix.now; cells = p.cells.items } };
}

impl<'a> Pen<'a> {
    /// A pen that has written no cells.
    pub(crate) fn new(alloc: Global, naming: Naming<'a>) -> Pen<'a>
        ensures { result ≡ blank naming.entry }
    {
        Pen {
            alloc,
            naming,
            cells: Vec::new(alloc),
        }
    }

    /// The cells that were written.
    pub(crate) fn into_cells(self) -> Vec<Cell>
        ensures { result.items ≡ self.entry.cells }
    {
        self.cells
    }
}

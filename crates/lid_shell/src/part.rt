//! The part of an actor.

ghost use Rattle.std.specs.Prelude.{◌≡◌};
ghost use Rattle.lid_shell.specs.Parts.{rows_given};

use lid_base::{Items, Name};
use lid_shell_nodes::{ShellNode, SinkNode, SourceNode};
use lid_texts::Rows;
use lid_texts_packed::InputRows;
use std::alloc::Global;

/// The source with all input rows, and room for one of them.
#[derive(Drop)]
pub(crate) struct Input<'r> {
    pub(crate) node: SourceNode,
    pub(crate) rows: InputRows<'r>,
    /// Room for the bits of the row that is put.
    pub(crate) row: Vec<bool>,
}

/// The rows that a sink has given, and room for those to come.
#[derive(Drop)]
pub(crate) struct Given {
    pub(crate) columns: Items<Name>,
    /// A row of the sink's width for each firing: first those given, in order.
    pub(crate) rows: Vec<Items<bool>>,
    /// How many were given.
    pub(crate) count: usize,
    pub(crate) alloc: Global,
}

/// What an actor is: a node, or a mover.
#[derive(Drop)]
pub(crate) enum Role<'r> {
    /// The source, with all input rows.
    Source(Input<'r>),
    /// A shell.
    Shell(ShellNode),
    /// A mover, which moves a token from one station to the next.
    Mover,
    /// The sink, with its output rows.
    Sink(SinkNode, Given),
}

impl Given {
    /// The rows given.
    pub(crate) fn done(&self) -> &[Items<bool>]
        ensures { result.now ≡ rows_given self.now }
    {
        if self.count < self.rows.len() {
            &self.rows[..self.count]
        } else {
            self.rows.as_slice()
        }
    }

    /// Hands out the rows given.
    pub(crate) fn into_rows(self) -> Rows
        ensures columns { result.columns ≡ self.columns }
        ensures bits { result.bits ≡ rows_given self }
    {
        let Given {
            columns,
            mut rows,
            count,
            ..
        } = self;
        rows.truncate(count);
        Rows {
            columns,
            bits: Items::from_vec(rows),
        }
    }
}

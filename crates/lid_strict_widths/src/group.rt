//! Steps of one width and kind, and a program with its steps in groups of such.

use lid_strict_engine::Program;

/// Steps that are run one after the other and read as many nets each; all of them have a table of words, or none has.
#[derive(Clone, Copy)]
pub struct Group {
    /// How many steps are run before the first.
    pub start: usize,
    /// How many are run up to the last.
    pub end: usize,
    /// How many nets each step reads.
    pub width: u32,
    /// Whether each step has a table of words.
    pub tabled: bool,
}

/// What is kept for steps.
#[derive(Drop)]
pub(crate) struct Tables {
    /// The words of tables, table after table.
    pub words: Vec<u64>,
    /// The truth table of each step, or the place of the first of its words.
    pub tables: Vec<u64>,
}

/// A program with an order in which it is run, and beside it what a loop over steps of one width goes through.
#[derive(Drop)]
pub struct ByWidth {
    pub program: Program,
    /// The places of the steps, as they are run.
    pub order: Vec<usize>,
    /// The net that each step writes, as they are run.
    pub outs: Vec<u32>,
    /// The words of tables, table after table.
    pub words: Vec<u64>,
    /// The truth table of each step, as they are run, or the place of the first of its words; that of one that has neither
    /// says nothing.
    pub tables: Vec<u64>,
    /// The nets that steps read, step after step, as they are run.
    pub reads: Vec<u32>,
    /// All steps, as they are run.
    pub groups: Vec<Group>,
}

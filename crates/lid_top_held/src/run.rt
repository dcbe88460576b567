//! Runs that hold their rows, and what they run.

ghost use Rattle.std.specs.Prelude.{◌≡◌, ◌≤◌, length};
ghost use Rattle.std.specs.List.{AllByRecursion};
ghost use Rattle.std.proofs.Props.{props};
ghost use Rattle.lid_design.specs.Columns.{root_inputs};

use lid_base::{Name, Text};
use lid_texts_packed::PackedRows;
use lid_top_script::{NetFiles, Wrapped};
use std::convert::AsStr;

/// What is done once the rows of a run are read.
#[derive(Clone, Copy)]
pub enum HeldRun<'a> {
    /// A free run by 1 to 64 workers of at most 1,000,000 rounds, with their tallies where these are asked for.
    Free {
        workers: u32,
        rounds: u64,
        tally: bool,
    },
    /// The answers along the schedule in a file of this name, and the rows that the sink has given then.
    Walk(&'a str),
    /// The trace of 1 to 1,048,576 cycles of the clocked run as a value change dump.
    Wave(u64),
}

/// What a run is asked for: its files, its root model, and what is done with its rows.
#[derive(Clone, Copy)]
pub struct Asked<'a> {
    /// The files of its netlist and its stations, and its root.
    pub files: NetFiles<'a>,
    /// The file of its rows.
    pub vec: &'a str,
    /// What is done.
    pub run: HeldRun<'a>,
}

impl<'a> Asked<'a> {
    /// What words ask for.
    pub fn of(
        net: &'a Text,
        vec: &'a Text,
        stations: &'a Option<Text>,
        root: &'a Option<Name>,
        run: HeldRun<'a>,
    ) -> Asked<'a>
        ensures files { (result.files.net.now ≡ net.now) × (result.files.stations.now ≡ stations.now) × (result.files.root.now ≡ root.now) }
        ensures vec { result.vec.now ≡ vec.now }
        ensures run { result.run ≡ run.entry }
    {
        Asked {
            files: NetFiles::of(net, stations, root),
            vec: vec.as_str(),
            run,
        }
    }
}

/// A design with its system and stations, and at most 1,000,000 rows for the inputs of the design.
#[derive(Clone, Copy)]
pub(crate) struct Fed<'s> {
    /// The design, with its system and stations.
    pub(crate) wrapped: &'s Wrapped,
    /// The rows, packed.
    pub(crate) rows: &'s PackedRows,
    ghost few: { length rows.now.rows ≤ 1000000 },
    ghost wide: { AllByRecursion (λ row. length row ≡ length (root_inputs wrapped.now.design)) rows.now.rows } by { Prim.hlevel props },
}

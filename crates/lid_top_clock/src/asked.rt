//! What a run of `clock` is asked for, and what it is given.

ghost use Rattle.std.specs.Prelude.{◌≤◌};
ghost use Rattle.lid_stall_text.specs.Holds.{Ascend, listed};

use lid_base::{Items, Text};
use lid_stall_text::Stall;
use lid_top_script::NetFiles;

/// What a run is asked for: its files, its root model, and how many cycles its trace has.
#[derive(Clone, Copy)]
pub struct Asked<'a> {
    /// The files of its netlist and its stations, and its root.
    pub files: NetFiles<'a>,
    /// The file of its rows.
    pub vec: &'a str,
    /// That of its stalls, where the environment stalls.
    pub stalls: &'a Option<Text>,
    /// The cycles of its trace, 1 to 1,048,576, where one is asked for.
    pub trace: Option<u64>,
}

/// What a run is given beside a design with its stations.
#[derive(Drop)]
pub(crate) struct Given {
    /// The number of its rows, at most 1,000,000.
    pub(crate) rows: u64,
    /// The stalls that hold it, where there are some; their cycles ascend.
    pub(crate) stalls: Option<Items<Stall>>,
    ghost few: { rows ≤ 1000000 },
    ghost ascend: { Ascend (listed stalls) },
}

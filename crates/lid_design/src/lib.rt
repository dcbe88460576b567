//! Netlists: models, their cells and their instances, and what a design means as a synchronous
//! circuit.
#![tactic(auto)]

ghost use Rattle.std.specs.Prelude.{◌≡◌, ◌<◌, ℕ, Bool, List, length};
ghost use Rattle.lid_design.specs.Network.{Driver, Table, IsStrict};
ghost use Rattle.lid_design.specs.Walks.{WalksEnd, IsDrivenOnce, AreReadsDriven, HasTable, HasOneTable};
ghost use Rattle.lid_design.specs.Columns.{Column};
ghost use Rattle.lid_design.specs.Flat.{flat_drivers, IsFlat, MeetsRow};

use lid_base::{Items, Name};
use lid_cover::Cover;

/// A netlist of models, one of which is the root.
#[derive(Drop)]
pub struct Design {
    pub models: Items<Model>,
    /// The place of the root among the models.
    pub root: u32,
}

/// A module of a netlist.
#[derive(Drop)]
pub struct Model {
    pub name: Name,
    pub inputs: Items<Name>,
    pub outputs: Items<Name>,
    pub clocks: Items<Name>,
    pub cells: Items<Cell>,
    pub insts: Items<Inst>,
}

/// A cell drives one net.
#[derive(Drop)]
pub enum Cell {
    /// Logic without a state.
    Names {
        inputs: Items<Name>,
        out: Name,
        cover: Cover,
    },
    /// One bit of state.
    Latch {
        input: Name,
        out: Name,
        kind: LatchKind,
        /// The name that clocks the latch. `None` stands for `NIL` too.
        control: Option<Name>,
        init: Init,
    },
}

/// At which edge of its clock a latch takes its input.
#[derive(Clone, Copy, Debug, PartialEq, Eq)]
pub enum LatchKind {
    /// No type was written.
    Plain,
    /// Rising edge, `re`.
    Rise,
    /// Falling edge, `fe`.
    Fall,
}

/// How a latch begins.
#[derive(Clone, Copy, Debug, PartialEq, Eq)]
pub enum Init {
    Zero,
    One,
    /// Written as 2. The latch begins at 0.
    DontCare,
    /// Written as 3, or not written. The latch begins at 0.
    Unknown,
}

/// An instance of a model.
#[derive(Drop)]
pub struct Inst {
    pub model: Name,
    pub binds: Items<Bind>,
}

/// A net of an instance's model, and the net that it is bound to.
#[derive(Drop)]
pub struct Bind {
    pub formal: Name,
    pub actual: Name,
}

/// One pearl with everything in it, whose nets are the numbers below `nets`.
#[derive(Drop)]
pub struct Flat {
    pub nets: u32,
    /// The nets of the inputs, in order.
    pub ins: Items<u32>,
    /// The nets of the outputs, in order.
    pub outs: Items<u32>,
    pub latches: Items<FlatLatch>,
    /// Each reads inputs, latches and covers before it alone.
    pub covers: Items<FlatCover>,
}

/// A latch between two nets.
#[derive(Clone, Copy)]
pub struct FlatLatch {
    pub input: u32,
    pub out: u32,
    /// The bit that it begins with.
    pub init: bool,
}

/// A cover between nets.
#[derive(Drop)]
pub struct FlatCover {
    /// The nets that it reads, in the order of the cover's inputs.
    pub ins: Items<u32>,
    pub out: u32,
    pub cover: Cover,
}

/// A network in which no walk has `n` edges has a strict table for any rows where it drives no column
/// twice, and two strict tables agree on the driven columns where all that is read is driven. This does
/// nothing; its contract is the law, for whatever drives the columns.
pub fn networks_have_one_table()
    ensures some { (drivers : Column → List (Driver Column)) (n : ℕ) → WalksEnd drivers n → IsDrivenOnce drivers → HasTable drivers }
    ensures one { (drivers : Column → List (Driver Column)) (n : ℕ) → WalksEnd drivers n → AreReadsDriven drivers → HasOneTable drivers }
{}

/// A flat part that meets its rules has exactly one strict table for any rows, and each row of it is
/// a row of the part: with the bits of the inputs, of the latches and of the covers. This does nothing;
/// its contract is the law.
pub fn flat_parts_have_one_table()
    ensures some { (f : Flat) → IsFlat f → HasTable (flat_drivers f) }
    ensures one { (f : Flat) → IsFlat f → HasOneTable (flat_drivers f) }
    ensures meets { (f : Flat) (rows : List (List Bool)) (b : Table ℕ) (t : ℕ) → IsStrict (flat_drivers f) rows b → t < length rows → MeetsRow f rows b t }
{}

/// The rules of flat parts can be met: there is one with an input, a latch that is its output, and a
/// cover of both. This does nothing; its contract is the law.
pub fn some_flat_part_meets_its_rules()
    ensures { (f : Flat) × IsFlat f × (length f.ins ≡ 1) × (length f.latches ≡ 1) × (length f.covers ≡ 1) × (length f.outs ≡ 1) }
{}

//! The board.

ghost use Rattle.lid_board.specs.Ties.{IsLaidTable};

use crate::steps::Order;
use crate::view::HandView;
use atomic_table::{Seat, Table};
use std::alloc::Global;

/// Stations that threads step through their hands, each station of 2 to 16 places.
#[derive(Drop)]
pub struct Board {
    pub(crate) table: Table<(), HandView, Seat<(), HandView>, Order, Global>,
    /// The capacity of each station.
    pub(crate) caps: Vec<u32>,
    /// The number of each station's first word.
    pub(crate) firsts: Vec<usize>,
    pub(crate) alloc: Global,
    ghost laid: { IsLaidTable table.shared.key.me.0.ends caps.items firsts.items table.shared.table_id },
}

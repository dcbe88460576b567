ghost use Rattle.std.specs.Prelude.{◌≡◌, Bool, List, [], length, IfOk, OnOk};
ghost use Rattle.std.specs.List.{AllByRecursion};
ghost use Rattle.lid_design.specs.Columns.{root_outputs, IsStrictOutput};
ghost use Rattle.lid_design.specs.WellFormed.{IsWellFormed};
ghost use Rattle.lid_texts.specs.RowsText.{rows_text};
ghost use Rattle.lid_check.specs.Networks.{IsNetwork};

use crate::simulation::{make_ready, run_ready};
use crate::source::RowSource;
use crate::store::RowStore;
use lid_base::{Items, copy_names};
use lid_check::{Checked, Network};
use lid_design::Design;
use lid_texts::Rows;
use lid_texts_packed::{PackedRows, RowsPrinter};
use std::alloc::{AllocError, Global};

/// The strict outputs of an accepted design for input rows, by a simulation of its columns: each row costs one pass
/// over its covers and latches, and connections and buffers take no step.
///
/// # Errors
/// Where there is no memory.
pub fn strict(alloc: Global, checked: &Checked, rows: &Rows) -> Result<Rows, AllocError>
    ensures columns { IfOk result (λ out. out.columns ≡ root_outputs checked.now) }
    ensures ok { IfOk result (λ out. IsStrictOutput checked.now rows.now.bits out.bits) }
    ensures height { IfOk result (λ out. length out.bits ≡ length rows.now.bits) }
    ensures width { IfOk result (λ out. AllByRecursion (λ row. length row ≡ length (root_outputs checked.now)) out.bits) }
{
    let columns = copy_names(alloc, checked.outputs())?;
    let network = checked.network();
    let mut packed = PackedRows::new(alloc, network.outputs.len());
    run(alloc, checked.design(), network, rows, &mut packed)?;
    let bits = packed.unpack(alloc)?;
    Ok(Rows {
        columns,
        bits: Items::from_vec(bits),
    })
}

/// The strict outputs of an accepted design for packed input rows, as a text.
///
/// # Errors
/// Where there is no memory.
pub fn strict_rows_text(
    alloc: Global,
    checked: &Checked,
    rows: &PackedRows,
) -> Result<Vec<u8>, AllocError>
    ensures { IfOk result (λ text. (outs : List (List Bool)) × IsStrictOutput checked.now rows.now.rows outs
        × (text.items ≡ rows_text (root_outputs checked.now) outs)) }
{
    let network = checked.network();
    let mut printer = RowsPrinter::new(alloc, checked.outputs(), network.outputs.len())?;
    run(alloc, checked.design(), network, rows, &mut printer)?;
    Ok(printer.into_text())
}

/// Puts the strict outputs of a design for input rows, by its columns, where no rows were put before.
fn run<R: RowSource, W: RowStore>(
    alloc: Global,
    design: &Design,
    network: &Network,
    rows: &R,
    into: &mut W,
) -> Result<(), AllocError>
    requires formed { IsWellFormed design.now }
    requires network { IsNetwork design.now network.now }
    requires width { W.width (W.form into.old) ≡ length network.now.outputs }
    requires none { W.has into.old [] }
    ensures form { OnOk result (W.form into.new ≡ W.form into.old) }
    ensures rows { OnOk result ((outs : List (List Bool)) × IsStrictOutput design.now (R.rows rows.now) outs × W.has into.new outs) }
{
    let drivers = network.columns.drivers.as_slice();
    let order = network.order.as_slice();
    let outs = network.outputs.as_slice();
    let ready = make_ready(alloc, design, drivers, order, outs)?;
    run_ready(alloc, &ready, rows, into)
}

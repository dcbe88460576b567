//! The reading of a rows text.

ghost use Rattle.std.specs.Prelude.{◌≡◌, ◌*◌, ◌≤◌, ◌⊎◌, Ok, Err, List, ℕ, [], length, IfOk, IfErr, OnOk};
ghost use Rattle.lid_texts.specs.Rows.{IsWide, rows_reading};
ghost use Rattle.lid_texts.specs.Scanned.{HasRead};

use crate::rows::{Rows, VecFault};
use crate::scan::RowScan;
use lid_base::{Items, Name, copy_names};
use std::alloc::Global;

/// Reads the bits of a text in one piece.
fn scan_all(scan: &mut RowScan, bytes: &[u8], into: &mut Vec<Items<bool>>) -> Result<(), VecFault>
    requires read { HasRead scan.old [] }
    requires none { into.old.items ≡ [] }
    ensures ok { OnOk result (rows_reading scan.old.columns scan.old.outs bytes.now ≡ Ok (record { columns = scan.old.columns; bits = into.new.items })) }
    ensures err { IfErr result (λ e. (e ≡ VecFault.Memory) ⊎ (rows_reading scan.old.columns scan.old.outs bytes.now ≡ Err e)) }
{
    let Ok(()) = scan.feed(bytes, into) else {
        return Err(VecFault::Memory);
    };
    match scan.finish(into) {
        Ok(_) => Ok(()),
        Err(fault) => Err(fault),
    }
}

/// The bits of the rows of a text.
fn read_bits(
    alloc: Global,
    bytes: &[u8],
    columns: &[Name],
    outs: u32,
) -> Result<Items<Items<bool>>, VecFault>
    ensures ok { IfOk result (λ bits. rows_reading columns.now outs bytes.now ≡ Ok (record { columns = columns.now; bits = bits })) }
    ensures err { IfErr result (λ e. (e ≡ VecFault.Memory) ⊎ (rows_reading columns.now outs bytes.now ≡ Err e)) }
{
    let Ok(mut scan) = RowScan::start(alloc, columns, outs) else {
        return Err(VecFault::Memory);
    };
    let mut bits = Vec::new(alloc);
    match scan_all(&mut scan, bytes, &mut bits) {
        Ok(()) => Ok(Items::from_vec(bits)),
        Err(fault) => Err(fault),
    }
}

/// Reads the rows of a text whose columns are these, where each row gives `outs` output bits.
///
/// The first logical line has the column names, or `-` where there are no columns. Each further
/// logical line is a row: its words joined have one character `0` or `1` for each column, or are
/// `-` where there are no columns.
///
/// # Errors
/// `Limit` of `FileBytes`, with the length of the text, comes first of all. Then the first logical
/// line that is at fault is told; on one line a bad byte comes first, as `Char`. A text without
/// logical lines is `Header`. `Memory` may come at any text.
pub fn read_rows(alloc: Global, bytes: &[u8], columns: &[Name], outs: u32) -> Result<Rows, VecFault>
    ensures ok { IfOk result (λ rows. rows_reading columns.now outs bytes.now ≡ Ok rows) }
    ensures err { IfErr result (λ e. (e ≡ VecFault.Memory) ⊎ (rows_reading columns.now outs bytes.now ≡ Err e)) }
    ensures columns { IfOk result (λ rows. rows.columns ≡ columns.now) }
    ensures wide { IfOk result IsWide }
    ensures few { IfOk result (λ rows. length rows.bits ≤ 1000000) }
    ensures few_out_bits { IfOk result (λ rows. length rows.bits * outs ≤ 67108864) }
{
    let bits = match read_bits(alloc, bytes, columns, outs) {
        Ok(bits) => bits,
        Err(fault) => return Err(fault),
    };
    match copy_names(alloc, columns) {
        Ok(columns) => Ok(Rows { columns, bits }),
        Err(_) => Err(VecFault::Memory),
    }
}

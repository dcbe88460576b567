//! Rows of bits, written as a text.

ghost use Rattle.std.specs.Prelude.{◌≡◌, ◌++◌, ◌∷◌, [], map, OnOk, OnErr};
ghost use Rattle.std.specs.List.{flat_map};
ghost use Rattle.lid_base.specs.Lists.{Keeps};
ghost use Rattle.lid_base_lines.specs.Texts.{line_text};
ghost use Rattle.lid_texts.specs.Rows.{is_any, header_words};
ghost use Rattle.lid_texts.specs.RowsText.{row_text, rows_text, bit_char};

use crate::line::has_columns;
use crate::rows::Rows;
use lid_base::{Items, Name};
use lid_base_lines::{append_line, cut_back};
use std::alloc::AllocError;

/// Appends the words of the header line.
#[tactic(auto, unfolding(lid_base_lines::specs::Texts::line_text))]
fn append_columns(columns: &[Name], into: &mut Vec<u8>) -> Result<(), AllocError>
    ensures ok { OnOk result (into.new.items ≡ into.old.items ++ line_text (header_words columns.now)) }
    ensures kept { Keeps into.old.items into.new.items }
{
    if has_columns(columns) {
        append_line(columns, into)
    } else {
        into.extend_from_slice(b"-\n")
    }
}

/// Appends the header line: the column names, or `-` where there are no columns.
///
/// # Errors
/// Where there is no memory; `into` is then as it was.
pub fn append_header(columns: &[Name], into: &mut Vec<u8>) -> Result<(), AllocError>
    ensures ok { OnOk result (into.new.items ≡ into.old.items ++ line_text (header_words columns.now)) }
    ensures err { OnErr result (into.new.items ≡ into.old.items) }
    ensures kept { Keeps into.old.items into.new.items }
{
    cut_back(into.len(), append_columns(columns, into), into)
}

/// Appends a character for each bit.
fn append_bits(row: &[bool], into: &mut Vec<u8>) -> Result<(), AllocError>
    ensures ok { OnOk result (into.new.items ≡ into.old.items ++ map bit_char row.now) }
    ensures kept { Keeps into.old.items into.new.items }
{
    for bit in row {
        into.push(if *bit { b'1' } else { b'0' })?;
    }
    Ok(())
}

/// Appends the word of a row and the end of its line.
fn append_row_line(columns: &[Name], row: &[bool], into: &mut Vec<u8>) -> Result<(), AllocError>
    ensures ok { OnOk result (into.new.items ≡ into.old.items ++ row_text columns.now row.now) }
    ensures kept { Keeps into.old.items into.new.items }
{
    if has_columns(columns) {
        append_bits(row, into)?;
        into.push(b'\n')?;
    } else {
        into.extend_from_slice(b"-\n")?;
    }
    Ok(())
}

/// Appends the line of a row: its bits as one word, or `-` where there are no columns.
///
/// # Errors
/// Where there is no memory; `into` is then as it was.
pub fn append_row(columns: &[Name], row: &[bool], into: &mut Vec<u8>) -> Result<(), AllocError>
    ensures ok { OnOk result (into.new.items ≡ into.old.items ++ row_text columns.now row.now) }
    ensures err { OnErr result (into.new.items ≡ into.old.items) }
    ensures kept { Keeps into.old.items into.new.items }
{
    cut_back(into.len(), append_row_line(columns, row, into), into)
}

/// Appends the line of each row.
fn append_rows(columns: &[Name], bits: &[Items<bool>], into: &mut Vec<u8>) -> Result<(), AllocError>
    ensures ok { OnOk result (into.new.items ≡ into.old.items ++ flat_map (row_text columns.now) bits.now) }
    ensures kept { Keeps into.old.items into.new.items }
{
    for row in bits {
        append_row(columns, row.as_slice(), into)?;
    }
    Ok(())
}

/// Appends the header line and the line of each row.
#[tactic(auto, unfolding(crate::specs::RowsText::rows_text))]
fn append_text(rows: &Rows, into: &mut Vec<u8>) -> Result<(), AllocError>
    ensures ok { OnOk result (into.new.items ≡ into.old.items ++ rows_text rows.now.columns rows.now.bits) }
    ensures kept { Keeps into.old.items into.new.items }
{
    append_header(rows.columns.as_slice(), into)?;
    append_rows(rows.columns.as_slice(), rows.bits.as_slice(), into)
}

/// Appends the rows as a text: a header line with the column names, or `-` where there are no
/// columns, and for each row a line with its bits as one word, or `-`.
///
/// # Errors
/// Where there is no memory; `into` is then as it was.
pub fn print_rows(rows: &Rows, into: &mut Vec<u8>) -> Result<(), AllocError>
    ensures ok { OnOk result (into.new.items ≡ into.old.items ++ rows_text rows.now.columns rows.now.bits) }
    ensures err { OnErr result (into.new.items ≡ into.old.items) }
{
    cut_back(into.len(), append_text(rows, into), into)
}

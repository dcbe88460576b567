//! Rows of bits, written as a text one after the other.

ghost use Rattle.std.specs.Prelude.{◌≡◌, ◌++◌, ◌∷◌, [], Bool, List, length, map, IfOk, OnOk};
ghost use Rattle.lid_texts.specs.RowsText.{bit_char, row_text};
ghost use Rattle.lid_texts_packed.specs.Writing.{HasPrinted};

use lid_base::Name;
use lid_texts::append_header;
use std::alloc::{AllocError, Global};

/// The text of rows under columns, as `lid_texts::print_rows` writes it, as far as rows were pushed.
#[derive(Drop)]
pub struct RowsPrinter<'c> {
    columns: &'c [Name],
    /// Room for the characters of a row.
    chars: Vec<u8>,
    text: Vec<u8>,
}

/// Writes a character for each bit.
fn print_bits(row: &[bool], into: &mut [u8])
    requires { length into.old ≡ length row.now }
    ensures { into.new ≡ map bit_char row.now }
{
    for place in 0..row.len() {
        into[place] = b'0' + u8::from(row[place]);
    }
}

/// Appends the line of a row. Its characters are written over others first, so that they are appended at once.
fn append_line(
    columns: &[Name],
    row: &[bool],
    chars: &mut [u8],
    into: &mut Vec<u8>,
) -> Result<(), AllocError>
    requires { length chars.old ≡ length row.now }
    ensures ok { OnOk result (into.new.items ≡ into.old.items ++ row_text columns.now row.now) }
    ensures long { length chars.new ≡ length chars.old }
{
    match columns {
        [] => into.extend_from_slice(b"-\n")?,
        _ => {
            print_bits(row, chars);
            into.extend_from_slice(chars)?;
            into.push(b'\n')?;
        }
    }
    Ok(())
}

impl<'c> RowsPrinter<'c> {
    /// The text of no rows, for rows of this width: the header alone.
    ///
    /// # Errors
    /// Want of memory.
    pub fn new(
        alloc: Global,
        columns: &'c [Name],
        width: usize,
    ) -> Result<RowsPrinter<'c>, AllocError>
        ensures columns { IfOk result (λ printer. printer.columns.now ≡ columns.now) }
        ensures width { IfOk result (λ printer. length printer.chars.items ≡ width) }
        ensures printed { IfOk result (λ printer. HasPrinted printer []) }
    {
        let chars = Vec::from_elem(alloc, b'0', width)?;
        let mut text = Vec::new(alloc);
        append_header(columns, &mut text)?;
        Ok(RowsPrinter {
            columns,
            chars,
            text,
        })
    }

    /// Appends the line of a row.
    ///
    /// # Errors
    /// Want of memory.
    pub fn push(&mut self, row: &[bool]) -> Result<(), AllocError>
        requires { length row.now ≡ length self.old.chars.items }
        ensures columns { self.new.columns ≡ self.old.columns }
        ensures width { length self.new.chars.items ≡ length self.old.chars.items }
        ensures printed { OnOk result ((rows : List (List Bool)) → HasPrinted self.old rows → HasPrinted self.new (rows ++ row.now ∷ [])) }
    {
        append_line(self.columns, row, self.chars.as_mut_slice(), &mut self.text)
    }

    /// Hands out the text.
    pub fn into_text(self) -> Vec<u8>
        ensures { result.items ≡ self.entry.text.items }
    {
        self.text
    }
}

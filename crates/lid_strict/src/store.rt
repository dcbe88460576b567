//! Where the rows of a simulation go.

ghost use Rattle.std.specs.Prelude.{◌≡◌, ◌++◌, ◌∷◌, [], ℕ, Bool, List, length, OnOk};
ghost use Rattle.lid_texts_packed.specs.Writing.{HasPrinted};

use lid_texts_packed::{PackedRows, RowsPrinter};
use std::alloc::AllocError;

/// What takes rows of bits of one width, one after the other.
pub trait RowStore {
    ghost use Rattle.std.specs.Prelude.{ℕ, Bool, List};

    ghost Form: { Type 0 };

    ghost form: { Self → Form };

    ghost width: { Form → ℕ };

    ghost has: { Self → List (List Bool) → Type 0 };

    /// Takes a row.
    ///
    /// # Errors
    /// Want of memory.
    fn push(&mut self, row: &[bool]) -> Result<(), AllocError>
        requires { length row.now ≡ width (form self.old) }
        ensures form { form self.new ≡ form self.old }
        ensures has { OnOk result ((rows : List (List Bool)) → has self.old rows → has self.new (rows ++ row.now ∷ [])) };
}

impl RowStore for PackedRows {
    ghost Form = { ℕ };

    ghost form = { λ packed. packed.width };

    ghost width = { λ width. width };

    ghost has = { λ packed rows. packed.rows ≡ rows };

    fn push(&mut self, row: &[bool]) -> Result<(), AllocError> {
        self.push(row)
    }
}

impl RowStore for RowsPrinter<'_> {
    ghost Form = { List (List ℕ) × ℕ };

    ghost form = { λ printer. (printer.columns.now, length printer.chars.items) };

    ghost width = { λ form. form.1 };

    ghost has = { HasPrinted };

    fn push(&mut self, row: &[bool]) -> Result<(), AllocError> {
        self.push(row)
    }
}

//! The lines of a dump, appended to a text. On a refusal what was there before is still there.

ghost use Rattle.std.specs.Prelude.{◌≡◌, ◌+◌, ◌++◌, ◌∷◌, ◌/◌, ◌≤◌, [], if◌then◌else◌, codes, OnOk};
ghost use Rattle.std.specs.Fmt.{decimal};
ghost use Rattle.lid_base.specs.Lists.{Keeps};
ghost use Rattle.lid_base_lines.specs.Texts.{line_text, lines_text};
ghost use Rattle.lid_vcd_form.specs.Ids.{id_of, binary, width_of, ending_of};
ghost use Rattle.lid_vcd_form.specs.Text.{
  declaration,
  time_words,
  bit_words,
  token_words,
  cell_lines,
  bit_change,
  token_change,
  cell_changes,
};

use crate::ids::{append_binary, append_id, ending_of, width_of};
use lid_base::{Shown, append_number};
use std::alloc::AllocError;

/// Appends the name of a variable.
fn append_name(n: u32, into: &mut Vec<u8>) -> Result<(), AllocError>
    ensures ok { OnOk result (into.new.items ≡ into.old.items ++ (codes "s" ++ decimal (n / 3) ++ ending_of n)) }
    ensures kept { Keeps into.old.items into.new.items }
{
    into.push(b's')?;
    append_number(u64::from(n / 3), into)?;
    into.extend_from_slice(ending_of(n))
}

/// Appends the first words of a declaration, and a blank.
fn append_kind(n: u32, into: &mut Vec<u8>) -> Result<(), AllocError>
    ensures ok { OnOk result (into.new.items ≡ into.old.items ++ (codes "$var wire " ++ width_of n ++ codes " ")) }
    ensures kept { Keeps into.old.items into.new.items }
{
    into.extend_from_slice(b"$var wire ")?;
    into.extend_from_slice(width_of(n))?;
    into.extend_from_slice(b" ")
}

/// Appends the declaration of a variable.
#[tactic(auto, unfolding(lid_base_lines::specs::Texts::line_text, crate::specs::Text::declaration))]
pub fn append_declaration(n: u32, into: &mut Vec<u8>) -> Result<(), AllocError>
    ensures ok { OnOk result (into.new.items ≡ into.old.items ++ line_text (declaration n)) }
    ensures kept { Keeps into.old.items into.new.items }
{
    append_kind(n, into)?;
    append_id(n, into)?;
    into.push(b' ')?;
    append_name(n, into)?;
    into.extend_from_slice(b" $end\n")
}

/// Appends a time.
#[tactic(auto, unfolding(lid_base_lines::specs::Texts::line_text))]
pub fn append_time(at: u64, into: &mut Vec<u8>) -> Result<(), AllocError>
    ensures ok { OnOk result (into.new.items ≡ into.old.items ++ line_text (time_words at)) }
    ensures kept { Keeps into.old.items into.new.items }
{
    into.push(b'#')?;
    append_number(at, into)?;
    into.extend_from_slice(b"\n")
}

/// Appends a bit that a variable has from now on.
#[tactic(auto, unfolding(lid_base_lines::specs::Texts::line_text))]
fn append_bit(n: u32, bit: bool, into: &mut Vec<u8>) -> Result<(), AllocError>
    ensures ok { OnOk result (into.new.items ≡ into.old.items ++ line_text (bit_words n bit)) }
    ensures kept { Keeps into.old.items into.new.items }
{
    into.push(if bit { b'1' } else { b'0' })?;
    append_id(n, into)?;
    into.extend_from_slice(b"\n")
}

/// Appends a token in binary digits, and a blank.
fn append_bits(token: u32, into: &mut Vec<u8>) -> Result<(), AllocError>
    ensures ok { OnOk result (into.new.items ≡ into.old.items ++ ((98 ∷ binary token) ++ codes " ")) }
    ensures kept { Keeps into.old.items into.new.items }
{
    into.push(b'b')?;
    append_binary(token, into)?;
    into.extend_from_slice(b" ")
}

/// Appends a token that a variable has from now on.
#[tactic(auto, unfolding(lid_base_lines::specs::Texts::line_text))]
fn append_token(n: u32, token: u32, into: &mut Vec<u8>) -> Result<(), AllocError>
    ensures ok { OnOk result (into.new.items ≡ into.old.items ++ line_text (token_words n token)) }
    ensures kept { Keeps into.old.items into.new.items }
{
    append_bits(token, into)?;
    append_id(n, into)?;
    into.extend_from_slice(b"\n")
}

/// Appends the three variables of a station, of which `n` is the first.
pub fn append_cell(n: u32, cell: &Shown, into: &mut Vec<u8>) -> Result<(), AllocError>
    requires { n ≤ 196605 }
    ensures ok { OnOk result (into.new.items ≡ into.old.items ++ lines_text (cell_lines n cell.now)) }
    ensures kept { Keeps into.old.items into.new.items }
{
    append_bit(n, cell.valid, into)?;
    append_bit(n + 1, cell.stop, into)?;
    append_token(n + 2, cell.token, into)
}

/// Appends a bit where it changed.
fn append_bit_change(n: u32, old: bool, new: bool, into: &mut Vec<u8>) -> Result<(), AllocError>
    ensures ok { OnOk result (into.new.items ≡ into.old.items ++ lines_text (bit_change n old new)) }
    ensures kept { Keeps into.old.items into.new.items }
{
    if old == new {
        return Ok(());
    }
    append_bit(n, new, into)
}

/// Appends a token where it changed.
fn append_token_change(n: u32, old: u32, new: u32, into: &mut Vec<u8>) -> Result<(), AllocError>
    ensures ok { OnOk result (into.new.items ≡ into.old.items ++ lines_text (token_change n old new)) }
    ensures kept { Keeps into.old.items into.new.items }
{
    if new == old {
        return Ok(());
    }
    append_token(n, new, into)
}

/// Appends the variables of a station that changed, of which `n` is the first.
pub fn append_cell_changes(
    n: u32,
    old: &Shown,
    new: &Shown,
    into: &mut Vec<u8>,
) -> Result<(), AllocError>
    requires { n ≤ 196605 }
    ensures ok { OnOk result (into.new.items ≡ into.old.items ++ lines_text (cell_changes n old.now new.now)) }
    ensures kept { Keeps into.old.items into.new.items }
{
    append_bit_change(n, old.valid, new.valid, into)?;
    append_bit_change(n + 1, old.stop, new.stop, into)?;
    append_token_change(n + 2, old.token, new.token, into)
}

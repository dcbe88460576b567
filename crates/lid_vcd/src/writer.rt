//! The dump of a trace.

ghost use Rattle.std.specs.Prelude.{◌≡◌, ◌+◌, ◌*◌, ◌≤◌, ◌++◌, ◌∷◌, [], length, OnOk, OnErr};
ghost use Rattle.lid_base.specs.Lists.{Keeps};
ghost use Rattle.lid_base_lines.specs.Texts.{lines_text};
ghost use Rattle.lid_vcd_form.specs.Writable.{IsWritable};
ghost use Rattle.lid_vcd_form.specs.Text.{
  declarations,
  timescale_words,
  scope_words,
  upscope_words,
  definitions_words,
  head_lines,
  shown_lines,
  changes,
  bit_differs,
  differs,
  any_differs,
  cycle_lines,
  later_lines,
  body_lines,
  wave_text,
};

use lid_base::Shown;
use lid_base_lines::cut_back;
use lid_texts_runs::Trace;
use lid_vcd_form::{append_cell, append_cell_changes, append_declaration, append_time};
use std::alloc::AllocError;

/// Appends the sections before the declarations.
#[tactic(auto, unfolding(lid_base_lines::specs::Texts::line_text))]
fn append_opening(into: &mut Vec<u8>) -> Result<(), AllocError>
    ensures ok { OnOk result (into.new.items ≡ into.old.items ++ lines_text (timescale_words ∷ scope_words ∷ [])) }
    ensures kept { Keeps into.old.items into.new.items }
{
    into.extend_from_slice(b"$timescale 1 ns $end\n$scope module lid $end\n")
}

/// Appends the sections after the declarations.
#[tactic(auto, unfolding(lid_base_lines::specs::Texts::line_text))]
fn append_closing(into: &mut Vec<u8>) -> Result<(), AllocError>
    ensures ok { OnOk result (into.new.items ≡ into.old.items ++ lines_text (upscope_words ∷ definitions_words ∷ [])) }
    ensures kept { Keeps into.old.items into.new.items }
{
    into.extend_from_slice(b"$upscope $end\n$enddefinitions $end\n")
}

/// Appends the declarations of so many variables.
fn append_declarations(variables: u32, into: &mut Vec<u8>) -> Result<(), AllocError>
    ensures ok { OnOk result (into.new.items ≡ into.old.items ++ lines_text (declarations 0 variables)) }
    ensures kept { Keeps into.old.items into.new.items }
{
    let mut n = 0;
    let mut left = variables;
    while left > 0 {
        append_declaration(n, into)?;
        n += 1;
        left -= 1;
    }
    Ok(())
}

/// Appends the lines before the body.
#[tactic(auto, unfolding(lid_vcd_form::specs::Text::head_lines))]
fn append_head(variables: u32, into: &mut Vec<u8>) -> Result<(), AllocError>
    ensures ok { OnOk result (into.new.items ≡ into.old.items ++ lines_text (head_lines variables)) }
    ensures kept { Keeps into.old.items into.new.items }
{
    append_opening(into)?;
    append_declarations(variables, into)?;
    append_closing(into)
}

/// Appends all variables.
fn append_all(cells: &[Shown], into: &mut Vec<u8>) -> Result<(), AllocError>
    requires { length cells.now ≤ 65536 }
    ensures ok { OnOk result (into.new.items ≡ into.old.items ++ lines_text (shown_lines 0 cells.now)) }
    ensures kept { Keeps into.old.items into.new.items }
{
    let mut n = 0;
    let mut rest = cells;
    while let [cell, after @ ..] = rest {
        append_cell(n, cell, into)?;
        n += 3;
        rest = after;
    }
    Ok(())
}

/// Appends the variables that changed from one cycle to the next.
fn append_changes(olds: &[Shown], news: &[Shown], into: &mut Vec<u8>) -> Result<(), AllocError>
    requires { length news.now ≤ 65536 }
    ensures ok { OnOk result (into.new.items ≡ into.old.items ++ lines_text (changes 0 olds.now news.now)) }
    ensures kept { Keeps into.old.items into.new.items }
{
    let mut n = 0;
    let mut before = olds;
    let mut rest = news;
    while let [new, after @ ..] = rest {
        let [old, olds @ ..] = before else {
            return Ok(());
        };
        append_cell_changes(n, old, new, into)?;
        n += 3;
        before = olds;
        rest = after;
    }
    Ok(())
}

/// Whether a bit changed.
fn bit_differs(old: bool, new: bool) -> bool
    ensures { result ≡ bit_differs old new }
{
    old != new
}

/// Whether a station changed.
fn differs(old: &Shown, new: &Shown) -> bool
    ensures { result ≡ differs old.now new.now }
{
    bit_differs(old.valid, new.valid) || bit_differs(old.stop, new.stop) || old.token != new.token
}

/// Whether one of the stations changed.
#[tactic(auto, using(crate::proofs::Parts::none_differs))]
fn any_differs(olds: &[Shown], news: &[Shown]) -> bool
    ensures { result ≡ any_differs olds.now news.now }
{
    let mut before = olds;
    let mut rest = news;
    while let [new, after @ ..] = rest {
        let [old, olds @ ..] = before else {
            return false;
        };
        if differs(old, new) {
            return true;
        }
        before = olds;
        rest = after;
    }
    false
}

/// Appends a cycle after the first, where something changed.
fn append_cycle(
    at: u64,
    olds: &[Shown],
    news: &[Shown],
    into: &mut Vec<u8>,
) -> Result<(), AllocError>
    requires { length news.now ≤ 65536 }
    ensures ok { OnOk result (into.new.items ≡ into.old.items ++ lines_text (cycle_lines at olds.now news.now)) }
    ensures kept { Keeps into.old.items into.new.items }
{
    if !any_differs(olds, news) {
        return Ok(());
    }
    append_time(at, into)?;
    append_changes(olds, news, into)
}

/// Appends the cycles after the first, of which there are so many, and how many cycles there are.
fn append_later(
    stations: u32,
    cycles: u64,
    first: &[Shown],
    cells: &[Shown],
    into: &mut Vec<u8>,
) -> Result<(), AllocError>
    requires whole { length cells.now ≡ stations * cycles }
    requires few { stations ≤ 65536 }
    requires fits { cycles ≤ 1048576 }
    ensures ok { OnOk result (into.new.items ≡ into.old.items ++ lines_text (later_lines stations 1 cycles first.now cells.now)) }
    ensures kept { Keeps into.old.items into.new.items }
{
    let mut k = 1;
    let mut left = cycles;
    let mut before = first;
    let mut rest = cells;
    while left > 0 {
        let (row, after) = rest.split_at(stations as usize);
        append_cycle(k, before, row, into)?;
        k += 1;
        left -= 1;
        before = row;
        rest = after;
    }
    append_time(k, into)
}

/// Appends the body.
fn append_body(
    stations: u32,
    cycles: u64,
    cells: &[Shown],
    into: &mut Vec<u8>,
) -> Result<(), AllocError>
    requires whole { length cells.now ≡ stations * cycles }
    requires few { stations ≤ 65536 }
    requires fits { cycles ≤ 1048576 }
    ensures ok { OnOk result (into.new.items ≡ into.old.items ++ lines_text (body_lines stations cycles cells.now)) }
    ensures kept { Keeps into.old.items into.new.items }
{
    append_time(0, into)?;
    if cycles == 0 {
        return Ok(());
    }
    let (row, after) = cells.split_at(stations as usize);
    append_all(row, into)?;
    append_later(stations, cycles - 1, row, after, into)
}

/// Appends the dump.
#[tactic(auto, unfolding(lid_vcd_form::specs::Text::wave_text))]
fn append_wave(trace: &Trace, into: &mut Vec<u8>) -> Result<(), AllocError>
    requires { IsWritable trace.now }
    ensures ok { OnOk result (into.new.items ≡ into.old.items ++ wave_text trace.now) }
    ensures kept { Keeps into.old.items into.new.items }
{
    append_head(3 * trace.stations, into)?;
    append_body(trace.stations, trace.cycles, trace.cells.as_slice(), into)
}

/// Appends the value change dump of a trace: a line for each section, declaration, time and change. A
/// cycle is one time unit. All variables stand at `#0`, and at a later time those that changed; the last
/// time is the number of cycles.
///
/// # Errors
/// Want of memory. Then nothing was appended.
pub fn write(trace: &Trace, into: &mut Vec<u8>) -> Result<(), AllocError>
    requires { IsWritable trace.now }
    ensures ok { OnOk result (into.new.items ≡ into.old.items ++ wave_text trace.now) }
    ensures err { OnErr result (into.new.items ≡ into.old.items) }
{
    cut_back(into.len(), append_wave(trace, into), into)
}

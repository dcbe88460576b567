//! The cells that a dump of the form shows.

ghost use Rattle.std.specs.Prelude.{◌≡◌, ◌≤◌, ◌++◌, ◌==◌, replicate, length, [], OnOk, IfOk};
ghost use Rattle.lid_vcd_form.specs.Words.{placed_words};
ghost use Rattle.lid_vcd_form.specs.Form.{start};
ghost use Rattle.lid_vcd_form.specs.Shows.{cell_of, shown_stations, cycles_of, cycles_until, values_after, cells_on};

use lid_base::Shown;
use lid_vcd_form::{Next, Place, next_word, step};
use std::alloc::{AllocError, Global};

/// A station as its three variables show it.
fn cell_of(valid: u32, stop: u32, token: u32) -> Shown
    ensures { result ≡ cell_of valid stop token }
{
    let valid = valid == 1;
    Shown {
        valid,
        stop: stop == 1,
        token: if valid { token } else { 0 },
    }
}

/// Appends all stations, where the variables have these values.
fn append_shown(values: &[u32], into: &mut Vec<Shown>) -> Result<(), AllocError>
    ensures { OnOk result (into.new.items ≡ into.old.items ++ shown_stations values.now) }
{
    let mut rest = values;
    while let [valid, stop, token, after @ ..] = rest {
        into.push(cell_of(*valid, *stop, *token))?;
        rest = after;
    }
    Ok(())
}

/// Appends so many cycles in which the variables have these values.
fn append_cycles(count: u32, values: &[u32], into: &mut Vec<Shown>) -> Result<(), AllocError>
    ensures { OnOk result (into.new.items ≡ into.old.items ++ cycles_of count values.now) }
{
    let mut left = count;
    while left > 0 {
        append_shown(values, into)?;
        left -= 1;
    }
    Ok(())
}

/// Appends the cycles that are known with what was read.
fn append_until(
    last: u32,
    values: &[u32],
    next: Next,
    into: &mut Vec<Shown>,
) -> Result<(), AllocError>
    ensures { OnOk result (into.new.items ≡ into.old.items ++ cycles_until last values.now next) }
{
    match next {
        Next::Time { at } => append_cycles(at.saturating_sub(last), values, into),
        _ => Ok(()),
    }
}

/// Sets the variable that changed.
fn set_value(next: Next, values: &mut [u32])
    ensures { values.new ≡ values_after values.old next }
{
    if let Next::Set {
        variable,
        value,
        ..
    } = next
    {
        let place = variable as usize;
        if place < values.len() {
            values[place] = value;
        }
    }
}

/// Appends the cells that a text shows, where the variables have these values at first.
#[tactic(auto, unfolding(lid_vcd_form::specs::Words::placed_words))]
fn append_cells(bytes: &[u8], values: &mut [u32], into: &mut Vec<Shown>) -> Result<(), AllocError>
    requires { length bytes.now ≤ 67108864 }
    ensures { OnOk result (into.new.items ≡ into.old.items ++ cells_on start values.old (placed_words bytes.now)) }
{
    let mut place = Place::start();
    let mut line = 1;
    let mut rest = bytes;
    while let Some(word) = next_word(line, rest) {
        let Some(next) = step(place, word.word) else {
            return Ok(());
        };
        append_until(place.time(), values, next.next, into)?;
        set_value(next.next, values);
        place = next;
        line = word.line;
        rest = word.after;
    }
    Ok(())
}

/// So many variables that were not yet set.
fn zeros(alloc: Global, count: u32) -> Result<Vec<u32>, AllocError>
    ensures { IfOk result (λ values. values.items ≡ replicate count 0) }
{
    Ok(vec![in alloc; 0; count as usize]?)
}

/// The cells that a text shows, which declares so many variables.
pub(crate) fn cells_of(
    alloc: Global,
    variables: u32,
    bytes: &[u8],
) -> Result<Vec<Shown>, AllocError>
    requires { length bytes.now ≤ 67108864 }
    ensures { IfOk result (λ cells. cells.items ≡ cells_on start (replicate variables 0) (placed_words bytes.now)) }
{
    let mut values = zeros(alloc, variables)?;
    let mut cells = Vec::new(alloc);
    append_cells(bytes, &mut values, &mut cells)?;
    Ok(cells)
}

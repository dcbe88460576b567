//! Truth tables of covers of at most six inputs.

ghost use Rattle.std.specs.Prelude.{◌≡◌, ◌≤◌, ◌<◌, ◌+◌, ◌*◌, ◌^◌, if◌then◌else◌};
ghost use Rattle.lid_cover.specs.Cover.{IsCover};
ghost use Rattle.lid_strict_engine.specs.Truth.{IsTruthTable, HasValues};

use lid_cover::{Cover, eval};

/// The greatest number of inputs of a cover that is run by its truth table.
pub const TABLE_INPUTS: u32 = 6;

/// A bit as a number.
pub fn value_of(bit: bool) -> u64
    ensures value { result ≡ (if bit then 1 else 0) }
    ensures small { result ≤ 1 }
{
    if bit { 1 } else { 0 }
}

/// The truth table of a cover: bit i is the value at the inputs that the lowest bits of i are.
pub fn table_of(cover: &Cover) -> u64
    requires rules { IsCover cover.now }
    requires few { cover.now.inputs ≤ 6 }
    ensures { IsTruthTable result cover.now }
{
    spread(cover, values_of(cover))
}

/// The values of a cover: bit i is the value at the inputs that the bits of i are.
fn values_of(cover: &Cover) -> u64
    requires rules { IsCover cover.now }
    requires few { cover.now.inputs ≤ 6 }
    ensures { HasValues cover.now cover.now.inputs result }
{
    let mut values = 0u64;
    let mut left = 1u64 << cover.inputs;
    while left > 0 {
        left -= 1;
        values = values * 2 + value_of(eval(cover, left));
    }
    values
}

/// The truth table of a cover, in which its values come again and again.
fn spread(cover: &Cover, values: u64) -> u64
    requires few { cover.now.inputs ≤ 6 }
    requires values { HasValues cover.now cover.now.inputs values }
    ensures { IsTruthTable result cover.now }
{
    let mut table = values;
    for e in cover.inputs..TABLE_INPUTS {
        table = again(table, e);
    }
    table
}

/// The lowest 2^e bits of a number, and the same bits again above them.
fn again(bits: u64, e: u32) -> u64
    requires few { e < 6 }
    requires small { bits < 2 ^ (2 ^ e) }
    ensures { result ≡ bits + 2 ^ (2 ^ e) * bits }
{
    bits + (bits << (1u32 << e))
}

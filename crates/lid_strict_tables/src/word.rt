//! One word of a table: the values of a cover at 64 numbers that follow one another.

ghost use Rattle.std.specs.Prelude.{◌≡◌, ◌≤◌, ◌<◌, ◌-◌, ◌^◌, ℕ, map};
ghost use Rattle.std.specs.List.{list_any};
ghost use Rattle.lid_cover.specs.Cover.{IsCover};
ghost use Rattle.lid_strict_engine.specs.Truth.{is_set};
ghost use Rattle.lid_strict_engine.specs.Programs.{cover_with};
ghost use Rattle.lid_strict_tables.specs.Wide.{low_mask, agrees_at, word_of};

use lid_cover::Cube;

/// At which values of the first six inputs a row agrees, where the others are the bits of a number.
fn found_by(cube: Cube, mask: u64, high: u64) -> u64
    requires { mask ≡ low_mask cube }
    ensures { (i : ℕ) → i < 64 → is_set result i ≡ agrees_at high i cube }
{
    if (high ^ (cube.value >> 6)) & (cube.care >> 6) == 0 {
        mask
    } else {
        0
    }
}

/// At which values of the first six inputs some row agrees, where the others are the bits of a number.
fn found_at(cubes: &[Cube], masks: &[u64], high: u64) -> u64
    requires { masks.now ≡ map low_mask cubes.now }
    ensures { (i : ℕ) → i < 64 → is_set result i ≡ list_any (agrees_at high i) cubes.now }
{
    let mut found = 0u64;
    for k in 0..cubes.len() {
        found |= found_by(cubes[k], masks[k], high);
    }
    found
}

/// A word of the table of a cover, by the rows of the cover and their masks.
pub(crate) fn word_at(on: bool, cubes: &[Cube], masks: &[u64], high: u64) -> u64
    requires { masks.now ≡ map low_mask cubes.now }
    ensures { (inputs : ℕ) → 6 ≤ inputs → high < 2 ^ (inputs - 6) → IsCover (cover_with inputs on cubes.now)
        → result ≡ word_of (cover_with inputs on cubes.now) high }
{
    let found = found_at(cubes, masks, high);
    if on { found } else { !found }
}

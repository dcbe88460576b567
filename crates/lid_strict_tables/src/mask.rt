//! What a row asks of the first six inputs, told at all 64 values of these by one number.

ghost use Rattle.std.specs.Prelude.{◌≡◌, ◌<◌, ◌/◌, ◌^◌, ◌||◌, not, ℕ, map, IfOk};
ghost use Rattle.lid_cover.specs.Cover.{same_bit, lowest_bit};
ghost use Rattle.lid_strict_engine.specs.Truth.{is_set};
ghost use Rattle.lid_strict_tables.specs.Wide.{low_mask};

use lid_cover::Cube;
use std::alloc::{AllocError, Global};

/// At which values of the first six inputs one of them is 1.
fn lane(input: u32) -> u64
    requires { input < 6 }
    ensures { (i : ℕ) → i < 64 → is_set result i ≡ lowest_bit (i / 2 ^ input) }
{
    match input {
        0 => 0xaaaa_aaaa_aaaa_aaaa,
        1 => 0xcccc_cccc_cccc_cccc,
        2 => 0xf0f0_f0f0_f0f0_f0f0,
        3 => 0xff00_ff00_ff00_ff00,
        4 => 0xffff_0000_ffff_0000,
        _ => 0xffff_ffff_0000_0000,
    }
}

/// At which values of the first six inputs a row allows what one of them is.
fn allowed(cube: Cube, input: u32) -> u64
    requires { input < 6 }
    ensures { (i : ℕ) → i < 64 → is_set result i
        ≡ (not (lowest_bit (cube.care / 2 ^ input)) || same_bit (lowest_bit (cube.value / 2 ^ input)) (lowest_bit (i / 2 ^ input))) }
{
    if (cube.care >> input) % 2 != 1 {
        u64::MAX
    } else if (cube.value >> input) % 2 == 1 {
        lane(input)
    } else {
        !lane(input)
    }
}

/// At which values of the first six inputs a row agrees with them.
fn mask_of(cube: Cube) -> u64
    ensures { result ≡ low_mask cube }
{
    let mut mask = u64::MAX;
    for input in 0..6 {
        mask &= allowed(cube, input);
    }
    mask
}

/// The masks of rows.
pub(crate) fn masks_of(alloc: Global, cubes: &[Cube]) -> Result<Vec<u64>, AllocError>
    ensures { IfOk result (λ masks. masks.items ≡ map low_mask cubes.now) }
{
    let mut masks = Vec::with_capacity(alloc, cubes.len())?;
    for cube in cubes {
        masks.push(mask_of(*cube))?;
    }
    Ok(masks)
}

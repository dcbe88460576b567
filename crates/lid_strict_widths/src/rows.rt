//! The value of a cover of any width, by its rows.

ghost use Rattle.std.specs.Prelude.{◌≡◌, ◌≤◌, ◌<◌, length, map, take, drop};
ghost use Rattle.std.specs.List.{AllByRecursion, list_any};
ghost use Rattle.lid_cover.specs.Cover.{cover_value, IsCover};
ghost use Rattle.lid_cover.specs.Masks.{packed, is_met};
ghost use Rattle.lid_strict_engine.specs.Programs.{cover_with, step_cover, IsStep};
ghost use Rattle.lid_strict_engine.specs.Rows.{bit_at};

use lid_cover::Cube;
use lid_strict_engine::{Program, ProgramStep};

/// The bits of some nets as one number: bit j is that of the j-th.
fn pack_all(bits: &[bool], nets: &[u32]) -> u64
    requires few { length nets.now ≤ 64 }
    requires below { AllByRecursion (λ k. k < length bits.now) nets.now }
    ensures { result ≡ packed (map (bit_at bits.now) nets.now) }
{
    let mut packed = 0u64;
    let mut left = nets.len();
    while left > 0 {
        left -= 1;
        packed = packed * 2 + u64::from(bits[nets[left] as usize]);
    }
    packed
}

/// Whether some row of a cover agrees with packed inputs. All rows are looked at: most covers have
/// few, and a branch that is often guessed wrong costs more.
fn any_met(cubes: &[Cube], bits: u64) -> bool
    ensures { result ≡ list_any (is_met bits) cubes.now }
{
    let mut found = false;
    for cube in cubes {
        found |= (bits ^ cube.value) & cube.care == 0;
    }
    found
}

/// The value of a cover, by its rows and the nets that it reads.
fn value_by_rows(on: bool, cubes: &[Cube], nets: &[u32], bits: &[bool]) -> bool
    requires below { AllByRecursion (λ k. k < length bits.now) nets.now }
    requires cover { IsCover (cover_with (length nets.now) on cubes.now) }
    ensures { result ≡ cover_value (cover_with (length nets.now) on cubes.now) (map (bit_at bits.now) nets.now) }
{
    any_met(cubes, pack_all(bits, nets)) == on
}

/// The value of the cover of a step, whatever its width.
pub(crate) fn value_of_step(program: &Program, step: ProgramStep, bits: &[bool]) -> bool
    requires step { IsStep program.now.nets program.now.reads.items program.now.cubes.items step }
    requires below { AllByRecursion (λ k. k < length bits.now) program.now.reads.items }
    ensures { result ≡ cover_value (step_cover program.now.cubes.items step) (map (bit_at bits.now)
        (take step.width (drop step.first program.now.reads.items))) }
{
    let first = step.first;
    value_by_rows(
        step.on,
        &program.cubes.as_slice()[step.cubes.start..step.cubes.end],
        &program.reads.as_slice()[first..first + step.width as usize],
        bits,
    )
}

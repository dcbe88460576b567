//! Wide covers, run by tables of words and by rows.

ghost use Rattle.std.specs.Prelude.{◌≡◌, ◌≤◌, ◌<◌, ◌+◌, length, IfOk};
ghost use Rattle.std.specs.List.{AllByRecursion};
ghost use Rattle.lid_base.specs.Each.{from_each};
ghost use Rattle.lid_cover.specs.Cover.{IsCube, IsCover};
ghost use Rattle.lid_strict_widths.specs.Groups.{IsByWidth};

use lid_base::Items;
use lid_cover::{Cover, Cube, eval};
use lid_strict_engine::Program;
use lid_strict_widths::{ByWidth, by_level, by_width, settle_by_width};
use std::alloc::{AllocError, Global};

/// A number that follows another, in no order that one sees.
fn next(seed: u64) -> u64 {
    seed.wrapping_mul(6_364_136_223_846_793_005)
        .wrapping_add(1_442_695_040_888_963_407)
}

/// A row that looks at most inputs.
fn cube_of(inputs: u32, seed: u64) -> Cube
    requires { inputs ≤ 13 }
    ensures { IsCube inputs result }
{
    let care = ((seed >> 20) | (seed >> 41)) % (1u64 << inputs);
    Cube {
        care,
        value: (seed >> 33) & care,
    }
}

/// A cover of so many rows.
fn cover_of(alloc: Global, inputs: u32, on: bool, rows: u64, seed: u64) -> Result<Cover, AllocError>
    requires { inputs ≤ 13 }
    ensures { IfOk result (λ c. IsCover c × (c.inputs ≡ inputs)) }
{
    let mut cubes = Vec::new(alloc);
    let mut state = seed;
    for _ in 0..rows {
        state = next(state);
        cubes.push(cube_of(inputs, state))?;
    }
    Ok(Cover {
        inputs,
        on,
        cubes: Items::from_vec(cubes),
    })
}

/// The nets below one.
fn nets_below(alloc: Global, count: u32) -> Result<Vec<u32>, AllocError>
    ensures { IfOk result (λ nets. nets.items ≡ from_each (λ k. k) 0 count) }
{
    let mut nets = Vec::new(alloc);
    for net in 0..count {
        nets.push(net)?;
    }
    Ok(nets)
}

/// Two covers of the same nets, which are those below a number; the next two are written.
fn both_of(alloc: Global, one: &Cover, other: &Cover) -> Result<ByWidth, AllocError>
    requires one { IsCover one.now }
    requires other { IsCover other.now }
    requires same { other.now.inputs ≡ one.now.inputs }
    requires few { one.now.inputs ≤ 13 }
    ensures is { IfOk result IsByWidth }
    ensures nets { IfOk result (λ x. x.program.nets ≡ one.now.inputs + 2) }
{
    let inputs = one.inputs;
    let mut program = Program::new(alloc, inputs as usize + 2);
    let nets = nets_below(alloc, inputs)?;
    program.push(nets.as_slice(), inputs, one)?;
    program.push(nets.as_slice(), inputs + 1, other)?;
    let order = by_level(&program)?;
    by_width(program, order)
}

/// Gives the first nets the bits of a number.
fn put_number(bits: &mut [bool], inputs: u32, number: u64)
    requires few { inputs ≤ 13 }
    requires room { inputs ≤ length bits.old }
    ensures { length bits.new ≡ length bits.old }
{
    for input in 0..inputs {
        bits[input as usize] = (number >> input) % 2 == 1;
    }
}

/// Whether two covers of the same nets have their values at each number.
fn are_run(x: &ByWidth, one: &Cover, other: &Cover, bits: &mut [bool]) -> bool
    requires is { IsByWidth x.now }
    requires one { IsCover one.now }
    requires other { IsCover other.now }
    requires few { one.now.inputs ≤ 13 }
    requires nets { x.now.program.nets ≡ one.now.inputs + 2 }
    requires room { length bits.old ≡ one.now.inputs + 2 }
{
    let inputs = one.inputs;
    let mut same = true;
    for number in 0..1u64 << inputs {
        put_number(bits, inputs, number);
        settle_by_width(x, bits);
        same &= bits[inputs as usize] == eval(one, number);
        same &= bits[inputs as usize + 1] == eval(other, number);
    }
    same
}

/// Whether two covers of so many inputs, at most 13, and rows have their values, where one is on and the other off.
fn covers_are_run(alloc: Global, inputs: u32, rows: u64) -> Result<bool, AllocError> {
    if inputs > 13 {
        return Ok(false);
    }
    let one = cover_of(alloc, inputs, true, rows, rows)?;
    let other = cover_of(alloc, inputs, false, rows, next(rows))?;
    let x = both_of(alloc, &one, &other)?;
    let mut bits = Vec::from_elem(alloc, false, inputs as usize + 2)?;
    Ok(are_run(&x, &one, &other, bits.as_mut_slice()))
}

#[test]
fn wide_covers_have_their_values(rt: HostRuntime) -> Result<(), AllocError> {
    for (inputs, rows) in [
        (6, 3),
        (7, 1),
        (7, 5),
        (8, 1),
        (8, 2),
        (9, 9),
        (10, 8),
        (11, 30),
        (12, 31),
        (12, 32),
        (13, 70),
    ] {
        assert!(rt;
            covers_are_run(rt.alloc(), inputs, rows)?,
            "{inputs} inputs, {rows} rows"
        );
    }
    Ok(())
}

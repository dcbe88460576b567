//! Steps by level and width.

ghost use Rattle.std.specs.Prelude.{◌≡◌, ◌≤◌, ◌<◌, IfOk, OnOk};
ghost use Rattle.lid_cover.specs.Cover.{IsCover};
ghost use Rattle.lid_strict_engine.specs.Programs.{program_covers, IsProgram};
ghost use Rattle.lid_strict_widths.specs.Orders.{IsRunOrder};

use lid_base::Items;
use lid_cover::Cover;
use lid_strict_engine::Program;
use lid_strict_widths::{as_laid, by_level, by_width};
use std::alloc::{AllocError, Global};

/// The constant 0 of so many inputs.
fn cover_of(alloc: Global, inputs: u32) -> Result<Cover, AllocError>
    requires { inputs ≤ 6 }
    ensures { IfOk result (λ c. IsCover c × (c.inputs ≡ inputs)) }
{
    Ok(Cover {
        inputs,
        on: true,
        cubes: Items::from_vec(Vec::new(alloc)),
    })
}

fn push_one(program: &mut Program, cover: &Cover, from: u32, out: u32) -> Result<(), AllocError>
    requires laid { IsProgram program.old }
    requires nets { program.old.nets ≡ 12 }
    requires cover { IsCover cover.now × (cover.now.inputs ≡ 1) }
    requires few { (from < 12) × (out < 12) }
    ensures laid { OnOk result (IsProgram program.new) }
    ensures nets { program.new.nets ≡ 12 }
{
    program.push(&[from], out, cover)
}

fn push_two(
    program: &mut Program,
    cover: &Cover,
    from: u32,
    other: u32,
    out: u32,
) -> Result<(), AllocError>
    requires laid { IsProgram program.old }
    requires nets { program.old.nets ≡ 12 }
    requires cover { IsCover cover.now × (cover.now.inputs ≡ 2) }
    requires few { (from < 12) × (other < 12) × (out < 12) }
    ensures laid { OnOk result (IsProgram program.new) }
    ensures nets { program.new.nets ≡ 12 }
{
    program.push(&[from, other], out, cover)
}

/// Nets 0 and 1 are given. Nets 2, 6, 7 and 8 stand on these; 3 and 10 on 2; 4, 5 and 9 on 3, and 11 on 10. Widths go
/// up and down; of 4 the second read is the deeper one, of 5 the first.
fn fill(program: &mut Program, one: &Cover, two: &Cover) -> Result<(), AllocError>
    requires laid { IsProgram program.old }
    requires nets { program.old.nets ≡ 12 }
    requires one { IsCover one.now × (one.now.inputs ≡ 1) }
    requires two { IsCover two.now × (two.now.inputs ≡ 2) }
    ensures laid { OnOk result (IsProgram program.new) }
{
    push_two(program, two, 0, 1, 2)?;
    push_one(program, one, 2, 3)?;
    push_two(program, two, 0, 3, 4)?;
    push_two(program, two, 3, 0, 5)?;
    push_one(program, one, 0, 6)?;
    push_two(program, two, 1, 0, 7)?;
    push_two(program, two, 0, 1, 8)?;
    push_one(program, one, 3, 9)?;
    push_two(program, two, 2, 0, 10)?;
    push_one(program, one, 10, 11)
}

fn mixed(alloc: Global) -> Result<Program, AllocError>
    ensures { IfOk result IsProgram }
{
    let one = cover_of(alloc, 1)?;
    let two = cover_of(alloc, 2)?;
    let mut program = Program::new(alloc, 12);
    fill(&mut program, &one, &two)?;
    Ok(program)
}

/// Whether the steps of a program, as they are run in an order, write these nets, and stand in so many groups.
fn writes(
    program: Program,
    order: Vec<usize>,
    outs: &[u32],
    groups: usize,
) -> Result<bool, AllocError>
    requires ready { IsProgram program }
    requires order { IsRunOrder (program_covers program) order.items }
{
    let x = by_width(program, order)?;
    Ok(x.outs.as_slice() == outs && x.groups.len() == groups)
}

#[test]
fn steps_are_run_as_they_stand(rt: HostRuntime) -> Result<(), AllocError> {
    let program = mixed(rt.alloc())?;
    let order = as_laid(&program)?;
    assert!(rt; writes(program, order, &[2, 3, 4, 5, 6, 7, 8, 9, 10, 11], 8)?);
    Ok(())
}

#[test]
fn steps_are_run_by_level_and_width(rt: HostRuntime) -> Result<(), AllocError> {
    let program = mixed(rt.alloc())?;
    let order = by_level(&program)?;
    assert!(rt; writes(program, order, &[6, 2, 7, 8, 3, 10, 9, 11, 4, 5], 6)?);
    Ok(())
}

//! The cells of the root and of the four models.

ghost use Rattle.std.specs.Prelude.{◌≡◌, ◌<◌, ◌++◌, ◌∷◌, [], codes, IfOk, OnOk, map};
ghost use Rattle.lid_design.specs.declared.Cell.TheVariants.{Names, Latch};
ghost use Rattle.lid_design.specs.declared.LatchKind.TheVariants.{Plain};
ghost use Rattle.lid_gen.specs.Designs.{net_at, one_input, unequal, kind_cover, kind_cells, buffer};

use crate::names::{letter, net_at, numbered};
use lid_base::{Items, Name, copy_name};
use lid_cover::{Cover, Cube};
use lid_design::{Cell, Init, LatchKind};
use std::alloc::{AllocError, Global};

/// A cover with these cubes.
fn cover(alloc: Global, inputs: u32, on: bool, cubes: &[Cube]) -> Result<Cover, AllocError>
    ensures { IfOk result (λ c. c ≡ record { inputs = inputs; on = on; cubes = cubes.now }) }
{
    Ok(Cover {
        inputs,
        on,
        cubes: Items::from_vec(Vec::from_slice(alloc, cubes)?),
    })
}

/// That one input is 1 and the other 0.
fn unequal(alloc: Global) -> Result<Cover, AllocError>
    ensures { IfOk result (λ c. c ≡ unequal) }
{
    cover(
        alloc,
        2,
        true,
        &[Cube { care: 3, value: 1 }, Cube { care: 3, value: 2 }],
    )
}

/// The cover of a kind: 0 is one of the two inputs, 1 both, 2 any of them and 3 not both.
fn kind_cover(alloc: Global, kind: u32) -> Result<Cover, AllocError>
    ensures { IfOk result (λ c. c ≡ kind_cover kind) }
{
    if kind == 0 {
        return unequal(alloc);
    }
    if kind == 1 {
        return cover(alloc, 2, true, &[Cube { care: 3, value: 3 }]);
    }
    if kind == 2 {
        return cover(
            alloc,
            2,
            true,
            &[Cube { care: 1, value: 1 }, Cube { care: 2, value: 2 }],
        );
    }
    cover(alloc, 2, false, &[Cube { care: 3, value: 3 }])
}

/// The names of two letters.
pub fn two_letters(alloc: Global, first: u8, second: u8) -> Result<Items<Name>, AllocError>
    ensures { IfOk result (λ names. names ≡ (first ∷ []) ∷ (second ∷ []) ∷ []) }
{
    let mut names = Vec::with_capacity(alloc, 2)?;
    names.push(letter(alloc, first)?)?;
    names.push(letter(alloc, second)?)?;
    Ok(Items::from_vec(names))
}

/// Appends a cell that drives a net with a cover of two nets of one letter each.
fn push_logic(
    alloc: Global,
    first: u8,
    second: u8,
    out: &[u8],
    cover: Cover,
    cells: &mut Vec<Cell>,
) -> Result<(), AllocError>
    ensures { OnOk result (cells.new.items ≡ cells.old.items ++ Names ((first ∷ []) ∷ (second ∷ []) ∷ []) out.now cover ∷ []) }
{
    let out = copy_name(alloc, out)?;
    let inputs = two_letters(alloc, first, second)?;
    cells.push(Cell::Names { inputs, out, cover })?;
    Ok(())
}

/// Appends a latch of a net.
fn push_latch(
    alloc: Global,
    input: &[u8],
    out: u8,
    init: Init,
    cells: &mut Vec<Cell>,
) -> Result<(), AllocError>
    ensures { OnOk result (cells.new.items ≡ cells.old.items ++ Latch input.now (out ∷ []) Plain None init ∷ []) }
{
    let input = copy_name(alloc, input)?;
    let out = letter(alloc, out)?;
    cells.push(Cell::Latch {
        input,
        out,
        kind: LatchKind::Plain,
        control: None,
        init,
    })?;
    Ok(())
}

/// The cells of the model of a kind.
pub fn kind_cells(alloc: Global, kind: u32) -> Result<Items<Cell>, AllocError>
    ensures { IfOk result (λ cells. cells ≡ kind_cells kind) }
{
    let mut cells = Vec::with_capacity(alloc, 4)?;
    push_logic(
        alloc,
        b'a',
        b'b',
        b"dq",
        kind_cover(alloc, kind)?,
        &mut cells,
    )?;
    push_logic(alloc, b'b', b'q', b"dr", unequal(alloc)?, &mut cells)?;
    push_latch(alloc, b"dq", b'q', Init::Zero, &mut cells)?;
    push_latch(alloc, b"dr", b'r', Init::One, &mut cells)?;
    Ok(Items::from_vec(cells))
}

/// The net at a place, as the only one of a list.
fn one_net(alloc: Global, place: u32) -> Result<Items<Name>, AllocError>
    ensures { IfOk result (λ names. names ≡ net_at place ∷ []) }
{
    let mut names = Vec::with_capacity(alloc, 1)?;
    names.push(net_at(alloc, place)?)?;
    Ok(Items::from_vec(names))
}

/// The cover that gives its one input.
fn one_input(alloc: Global) -> Result<Cover, AllocError>
    ensures { IfOk result (λ c. c ≡ one_input) }
{
    cover(alloc, 1, true, &[Cube { care: 1, value: 1 }])
}

/// The buffer of an output of the root, from the net at a place.
pub fn buffer(alloc: Global, output: u32, place: u32) -> Result<Cell, AllocError>
    requires { output < 4 }
    ensures { IfOk result (λ cell. cell ≡ buffer output place) }
{
    let inputs = one_net(alloc, place)?;
    let out = numbered(alloc, b"y", output)?;
    Ok(Cell::Names {
        inputs,
        out,
        cover: one_input(alloc)?,
    })
}

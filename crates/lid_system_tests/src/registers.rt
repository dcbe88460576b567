//! Registers: one latch, whose next bit a cover makes of the inputs and the latch. The expected bits are
//! worked out by hand.

ghost use Rattle.std.specs.Prelude.{◌≡◌, ◌<◌, ◌+◌, ◌∷◌, [], length, IfOk};
ghost use Rattle.std.specs.List.{AllByRecursion};
ghost use Rattle.lid_cover.specs.Cover.{IsCover};
ghost use Rattle.lid_design.specs.Flat.{IsFlat};
ghost use Rattle.lid_system_tests.specs.Registers.{nets_from, cover_with, register};

use lid_base::Items;
use lid_cover::{Cover, Cube};
use lid_design::{Flat, FlatCover, FlatLatch};
use lid_pearl::Pearl;
use lid_strict_engine::copy_of;
use std::alloc::{AllocError, Global};

/// The numbers below a count.
fn nets_below(alloc: Global, count: u32) -> Result<Items<u32>, AllocError>
    ensures { IfOk result (λ nets. nets ≡ nets_from 0 count) }
{
    let mut nets = Vec::new(alloc);
    for k in 0..count {
        nets.push(k)?;
    }
    Ok(Items::from_vec(nets))
}

/// A list of some items.
fn items_of<T: Copy>(alloc: Global, items: &[T]) -> Result<Items<T>, AllocError>
    ensures { IfOk result (λ list. list ≡ items.now) }
{
    let list = copy_of(alloc, items)?;
    Ok(Items::from_vec(list))
}

/// A latch that takes one net and gives another, in a list.
fn latch_of(alloc: Global, latch: FlatLatch) -> Result<Items<FlatLatch>, AllocError>
    ensures { IfOk result (λ list. list ≡ latch ∷ []) }
{
    let latches = [latch];
    items_of(alloc, &latches)
}

/// A cover of some nets, in a list.
fn logic_of(
    alloc: Global,
    reads: &[u32],
    out: u32,
    on: bool,
    cubes: &[Cube],
) -> Result<Items<FlatCover>, AllocError>
    requires { length reads.now < 64 }
    ensures { IfOk result (λ list. list ≡ record { ins = reads.now; out = out; cover = cover_with (length reads.now) on cubes.now } ∷ []) }
{
    let inputs = reads.len() as u32;
    let ins = items_of(alloc, reads)?;
    let cubes = items_of(alloc, cubes)?;
    let mut covers = Vec::new(alloc);
    covers.push(FlatCover {
        ins,
        out,
        cover: Cover { inputs, on, cubes },
    })?;
    Ok(Items::from_vec(covers))
}

/// A register with some inputs.
fn register_of(
    alloc: Global,
    inputs: u32,
    init: bool,
    reads: &[u32],
    on: bool,
    cubes: &[Cube],
    outs: &[u32],
) -> Result<Flat, AllocError>
    requires few { inputs < 63 }
    requires narrow { length reads.now < 64 }
    requires reads { AllByRecursion (λ k. k < inputs + 1) reads.now }
    requires cover { IsCover (cover_with (length reads.now) on cubes.now) }
    requires outs { AllByRecursion (λ k. k ≡ inputs) outs.now }
    ensures part { IfOk result (λ flat. flat ≡ register inputs init reads.now (cover_with (length reads.now) on cubes.now) outs.now) }
    ensures rules { IfOk result IsFlat }
    ensures ins { IfOk result (λ flat. length flat.ins ≡ inputs) }
    ensures outs { IfOk result (λ flat. length flat.outs ≡ length outs.now) }
{
    let ins = nets_below(alloc, inputs)?;
    let outs = items_of(alloc, outs)?;
    let latches = latch_of(
        alloc,
        FlatLatch {
            input: inputs + 1,
            out: inputs,
            init,
        },
    )?;
    let covers = logic_of(alloc, reads, inputs + 1, on, cubes)?;
    Ok(Flat {
        nets: inputs + 2,
        ins,
        outs,
        latches,
        covers,
    })
}

/// A part's pearl.
fn pearl_of(alloc: Global, part: Flat) -> Result<Pearl, AllocError>
    requires { IsFlat part }
    ensures ins { IfOk result (λ pearl. length pearl.flat.ins ≡ length part.ins) }
    ensures outs { IfOk result (λ pearl. length pearl.flat.outs ≡ length part.outs) }
{
    let pearl = Pearl::make(alloc, &part)?;
    Ok(pearl)
}

/// The inputs of a row, and the output after it.
type Row = (&'static [bool], bool);

/// Whether a pearl with one output gives the bits of some rows.
fn gives(pearl: &mut Pearl, ins: usize, rows: &[Row]) -> bool
    requires ins { length pearl.old.flat.ins ≡ ins }
    requires outs { length pearl.old.flat.outs ≡ 1 }
    ensures ins { length pearl.new.flat.ins ≡ ins }
    ensures outs { length pearl.new.flat.outs ≡ 1 }
{
    for i in 0..rows.len() {
        let (inputs, after) = rows[i];
        if inputs.len() != ins {
            return false;
        }
        let mut out = [false];
        pearl.step(inputs, &mut out);
        if out[0] != after {
            return false;
        }
    }
    true
}

/// Whether a pearl with one output shows this bit.
fn shows(pearl: &Pearl, want: bool) -> bool
    requires { length pearl.now.flat.outs ≡ 1 }
{
    let mut out = [!want];
    pearl.outputs(&mut out);
    out[0] == want
}

/// Whether the pearl of a part with one output begins with a bit, and then gives the bits of some rows.
fn runs(alloc: Global, part: Flat, first: bool, rows: &[Row]) -> Result<bool, AllocError>
    requires rules { IsFlat part }
    requires outs { length part.outs ≡ 1 }
{
    let ins = part.ins.len();
    let mut pearl = pearl_of(alloc, part)?;
    Ok(shows(&pearl, first) && gives(&mut pearl, ins, rows))
}

static XOR: [Cube; 2] = [Cube { care: 3, value: 1 }, Cube { care: 3, value: 2 }];

/// The parity of the bits so far, with the first 1 in the latch at the start.
static PARITY: [Row; 5] = [
    (&[false], true),
    (&[true], false),
    (&[true], true),
    (&[false], true),
    (&[true], false),
];

#[test]
fn a_register_keeps_the_parity_of_its_bits(rt: HostRuntime) -> Result<(), AllocError> {
    let part = register_of(rt.alloc(), 1, true, &[0, 1], true, &XOR, &[1])?;
    let mut pearl = pearl_of(rt.alloc(), part)?;
    assert_eq!(rt; pearl.outs(), 1);
    let begins = shows(&pearl, true);
    assert!(rt; begins);
    let goes = gives(&mut pearl, 1, &PARITY);
    assert!(rt; goes);
    Ok(())
}

#[test]
fn a_copy_goes_on_from_where_it_was_made(rt: HostRuntime) -> Result<(), AllocError> {
    let part = register_of(rt.alloc(), 1, true, &[0, 1], true, &XOR, &[1])?;
    let mut pearl = pearl_of(rt.alloc(), part)?;
    let mut out = [false];
    pearl.step(&[true], &mut out);
    let mut copy = pearl.copy()?;
    pearl.step(&[true], &mut out);
    let one = shows(&pearl, true);
    let other = shows(&copy, false);
    assert!(rt; one && other);
    copy.step(&[true], &mut out);
    let both = shows(&copy, true);
    assert!(rt; both);
    Ok(())
}

static NOT: [Cube; 1] = [Cube { care: 1, value: 0 }];

static TURNS: [Row; 3] = [(&[], true), (&[], false), (&[], true)];

#[test]
fn a_toggle_without_inputs_turns(rt: HostRuntime) -> Result<(), AllocError> {
    let part = register_of(rt.alloc(), 0, false, &[0], true, &NOT, &[0])?;
    let goes = runs(rt.alloc(), part, false, &TURNS)?;
    assert!(rt; goes);
    Ok(())
}

#[test]
fn a_pearl_without_outputs_steps(rt: HostRuntime) -> Result<(), AllocError> {
    let part = register_of(rt.alloc(), 1, false, &[0, 1], true, &XOR, &[])?;
    let mut pearl = pearl_of(rt.alloc(), part)?;
    assert_eq!(rt; pearl.outs(), 0);
    pearl.step(&[true], &mut []);
    pearl.outputs(&mut []);
    Ok(())
}

/// The first six are 1 and the seventh is 0, or all are 0 but the last.
static OF_SEVEN: [Cube; 2] = [
    Cube {
        care: 127,
        value: 63,
    },
    Cube {
        care: 127,
        value: 64,
    },
];

static SEVEN: [Row; 4] = [
    (&[true, true, true, true, true, true, false], false),
    (&[true, true, true, true, true, true, true], true),
    (&[false, false, false, false, false, false, true], false),
    (&[false, false, false, false, false, true, true], true),
];

#[test]
fn a_cover_of_seven_inputs_is_run_by_its_rows(rt: HostRuntime) -> Result<(), AllocError> {
    let part = register_of(
        rt.alloc(),
        7,
        false,
        &[0, 1, 2, 3, 4, 5, 6],
        false,
        &OF_SEVEN,
        &[7],
    )?;
    let goes = runs(rt.alloc(), part, false, &SEVEN)?;
    assert!(rt; goes);
    Ok(())
}

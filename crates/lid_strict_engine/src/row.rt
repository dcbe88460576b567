//! The bits of one row: given ones are put in, and those that are asked for are taken.

ghost use Rattle.std.specs.Prelude.{◌≡◌, ◌<◌, ◌++◌, ℕ, Bool, List, length, map, IfOk};
ghost use Rattle.std.specs.List.{AllByRecursion};
ghost use Rattle.lid_design.specs.Flat.{latch_init};
ghost use Rattle.lid_strict_engine.specs.Rows.{bit_at, AreRightAt};

use lid_design::FlatLatch;
use std::alloc::{AllocError, Global};

/// Gives some nets their bits, in order. What was right stays right.
pub fn put_bits(bits: &mut [bool], nets: &[u32], values: &[bool])
    requires below { AllByRecursion (λ k. k < length bits.old) nets.now }
    requires long { length values.now ≡ length nets.now }
    ensures size { length bits.new ≡ length bits.old }
    ensures bits { (f : ℕ → Bool) (known : List ℕ) → map f nets.now ≡ values.now → AreRightAt f known bits.old → AreRightAt f (nets.now ++ known) bits.new }
{
    for i in 0..nets.len() {
        bits[nets[i] as usize] = values[i];
    }
}

/// The bits that latches begin with.
pub fn first_state(alloc: Global, latches: &[FlatLatch]) -> Result<Vec<bool>, AllocError>
    ensures { IfOk result (λ state. state.items ≡ map latch_init latches.now) }
{
    let mut state = Vec::with_capacity(alloc, latches.len())?;
    for latch in latches {
        state.push(latch.init)?;
    }
    Ok(state)
}

/// Writes the bits of some nets, in order.
pub fn take_bits(bits: &[bool], nets: &[u32], into: &mut [bool])
    requires below { AllByRecursion (λ k. k < length bits.now) nets.now }
    requires long { length into.old ≡ length nets.now }
    ensures { into.new ≡ map (bit_at bits.now) nets.now }
{
    for i in 0..nets.len() {
        into[i] = bits[nets[i] as usize];
    }
}

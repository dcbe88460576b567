//! Programs: covers in flat arrays, one after the other.

ghost use Rattle.std.specs.Prelude.{◌≡◌, ◌≤◌, ◌<◌, ◌+◌, ◌++◌, ◌∷◌, [], length, IfOk, OnOk};
ghost use Rattle.std.specs.List.{AllByRecursion};
ghost use Rattle.lid_cover.specs.Cover.{IsCover};
ghost use Rattle.lid_strict_engine.specs.Truth.{IsTruthTable};
ghost use Rattle.lid_strict_engine.specs.Programs.{program_covers, IsProgram};

use crate::truth::{TABLE_INPUTS, table_of};
use lid_cover::{Cover, Cube};
use std::alloc::{AllocError, Global};

/// Consecutive items of a flat array.
#[derive(Clone, Copy)]
pub struct Span {
    /// The place of the first.
    pub start: usize,
    /// The place after the last.
    pub end: usize,
}

/// A cover, and where its reads and its rows are in the arrays of its program.
#[derive(Clone, Copy)]
pub struct ProgramStep {
    /// The truth table, where the cover has at most six inputs.
    pub table: u64,
    /// The place of its first read.
    pub first: usize,
    pub cubes: Span,
    /// The net that it writes.
    pub out: u32,
    /// How many nets it reads.
    pub width: u32,
    /// The value of the cover where some row agrees.
    pub on: bool,
}

/// Covers between nets, which are the numbers below `nets`, one after the other.
#[derive(Drop)]
pub struct Program {
    pub nets: usize,
    pub steps: Vec<ProgramStep>,
    /// The nets that covers read, cover after cover.
    pub reads: Vec<u32>,
    /// The rows of covers.
    pub cubes: Vec<Cube>,
}

impl Program {
    /// No covers. It takes no memory.
    #[tactic(auto, unfolding(crate::specs::Programs::program_covers))]
    pub fn new(alloc: Global, nets: usize) -> Program
        ensures laid { IsProgram result }
        ensures nets { result.nets ≡ nets }
        ensures none { program_covers result ≡ [] }
    {
        Program {
            nets,
            steps: Vec::new(alloc),
            reads: Vec::new(alloc),
            cubes: Vec::new(alloc),
        }
    }

    /// Adds a cover that reads some nets and writes one.
    pub fn push(&mut self, ins: &[u32], out: u32, cover: &Cover) -> Result<(), AllocError>
        requires laid { IsProgram self.old }
        requires rules { IsCover cover.now }
        requires width { cover.now.inputs ≡ length ins.now }
        requires ins { AllByRecursion (λ k. k < self.old.nets) ins.now }
        requires out { out < self.old.nets }
        ensures laid { OnOk result (IsProgram self.new) }
        ensures nets { self.new.nets ≡ self.old.nets }
        ensures shown { OnOk result (program_covers self.new ≡ program_covers self.old ++ record { ins = ins.now; out = out; cover = cover.now } ∷ []) }
    {
        let reads = append(&mut self.reads, ins)?;
        let cubes = append(&mut self.cubes, cover.cubes.as_slice())?;
        self.steps.push(ProgramStep {
            table: small_table(cover),
            out,
            first: reads.start,
            width: cover.inputs,
            cubes,
            on: cover.on,
        })?;
        Ok(())
    }

    /// An equal program.
    #[tactic(auto, unfolding(crate::specs::Programs::program_covers))]
    pub fn copy(&self) -> Result<Program, AllocError>
        ensures ready { IsProgram self.now → IfOk result IsProgram }
        ensures nets { IfOk result (λ copy. copy.nets ≡ self.now.nets) }
        ensures shown { IfOk result (λ copy. program_covers copy ≡ program_covers self.now) }
    {
        let alloc = *self.steps.allocator();
        let steps = copy_of(alloc, self.steps.as_slice())?;
        let reads = copy_of(alloc, self.reads.as_slice())?;
        let cubes = copy_of(alloc, self.cubes.as_slice())?;
        Ok(Program {
            nets: self.nets,
            steps,
            reads,
            cubes,
        })
    }
}

/// The truth table of a cover of at most six inputs.
fn small_table(cover: &Cover) -> u64
    requires { IsCover cover.now }
    ensures { cover.now.inputs ≤ 6 → IsTruthTable result cover.now }
{
    if cover.inputs <= TABLE_INPUTS {
        table_of(cover)
    } else {
        0
    }
}

/// A vector of some items.
pub fn copy_of<T: Copy>(alloc: Global, items: &[T]) -> Result<Vec<T>, AllocError>
    ensures { IfOk result (λ copy. copy.items ≡ items.now) }
{
    let mut copy = Vec::with_capacity(alloc, items.len())?;
    copy.extend_from_slice(items)?;
    Ok(copy)
}

/// Appends some items, and answers where they are.
fn append<T: Copy>(to: &mut Vec<T>, items: &[T]) -> Result<Span, AllocError>
    ensures items { OnOk result (to.new.items ≡ to.old.items ++ items.now) }
    ensures part { IfOk result (λ part. (part.start ≡ length to.old.items) × (part.end ≡ length to.new.items)) }
{
    let start = to.len();
    to.extend_from_slice(items)?;
    let end = to.len();
    Ok(Span { start, end })
}

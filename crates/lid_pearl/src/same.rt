//! Whether two layouts have the same latches and covers. Where the answer is true they have, which is proved. That it
//! is true wherever they have is no clause, since only memory hangs on it.

ghost use Rattle.std.specs.Prelude.{◌≡◌, true};

use lid_cover::Cube;
use lid_design::FlatLatch;
use lid_strict_engine::{Program, ProgramStep};

/// Whether two programs have as many nets, and the same covers, laid out alike.
pub(crate) fn is_same_program(program: &Program, other: &Program) -> bool
    ensures nets { result ≡ true → program.now.nets ≡ other.now.nets }
    ensures reads { result ≡ true → program.now.reads.items ≡ other.now.reads.items }
    ensures cubes { result ≡ true → program.now.cubes.items ≡ other.now.cubes.items }
    ensures steps { result ≡ true → program.now.steps.items ≡ other.now.steps.items }
{
    program.nets == other.nets
        && program.reads.as_slice() == other.reads.as_slice()
        && are_same_cubes(program.cubes.as_slice(), other.cubes.as_slice())
        && are_same_steps(program.steps.as_slice(), other.steps.as_slice())
}

/// Whether two lists have the same latches.
pub(crate) fn are_same_latches(a: &[FlatLatch], b: &[FlatLatch]) -> bool
    ensures { result ≡ true → a.now ≡ b.now }
{
    if a.len() != b.len() {
        return false;
    }
    for i in 0..a.len() {
        if !is_same_latch(a[i], b[i]) {
            return false;
        }
    }
    true
}

/// Whether two latches are the same.
fn is_same_latch(a: FlatLatch, b: FlatLatch) -> bool
    ensures { result ≡ true → a ≡ b }
{
    a.input == b.input && a.out == b.out && a.init == b.init
}

/// Whether two lists have the same cubes.
fn are_same_cubes(a: &[Cube], b: &[Cube]) -> bool
    ensures { result ≡ true → a.now ≡ b.now }
{
    if a.len() != b.len() {
        return false;
    }
    for i in 0..a.len() {
        if !(a[i].care == b[i].care && a[i].value == b[i].value) {
            return false;
        }
    }
    true
}

/// Whether two lists have the same steps.
fn are_same_steps(a: &[ProgramStep], b: &[ProgramStep]) -> bool
    ensures { result ≡ true → a.now ≡ b.now }
{
    if a.len() != b.len() {
        return false;
    }
    for i in 0..a.len() {
        if !is_same_step(a[i], b[i]) {
            return false;
        }
    }
    true
}

/// Whether two steps are the same.
fn is_same_step(a: ProgramStep, b: ProgramStep) -> bool
    ensures { result ≡ true → a ≡ b }
{
    a.table == b.table
        && a.first == b.first
        && a.cubes.start == b.cubes.start
        && a.cubes.end == b.cubes.end
        && a.out == b.out
        && a.width == b.width
        && a.on == b.on
}

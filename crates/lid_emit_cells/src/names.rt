//! The names of wires.

ghost use Rattle.std.specs.Prelude.{◌≡◌, ◌∷◌, [], IfOk, slice_index_or};
ghost use Rattle.lid_emit_names.specs.Spelling.{inner_name};
ghost use Rattle.lid_emit_cells.specs.Drafts.{name_at};

use crate::pen::Pen;
use crate::wire::Wire;
use lid_base::{Name, append_number, copy_name};
use lid_emit_meaning::{BLOCK_NAME, OFFER_NAME, STOP_NAME, VALID_NAME};
use std::alloc::{AllocError, Global};

/// What names are made of: those of the data inputs and outputs, and a prefix with which no port's name begins.
#[derive(Clone, Copy)]
pub struct Naming<'a> {
    pub inputs: &'a [Name],
    pub outputs: &'a [Name],
    pub prefix: &'a [u8],
}

impl Pen<'_> {
    /// The name of a wire.
    pub(crate) fn name_of(&self, wire: Wire) -> Result<Name, AllocError>
        ensures { IfOk result (λ name. name ≡ name_at self.now wire) }
    {
        match wire {
            Wire::Entry(j) => port_name(self.alloc, self.naming.inputs, j),
            Wire::Shown(j) => port_name(self.alloc, self.naming.outputs, j),
            Wire::Offer => copy_name(self.alloc, OFFER_NAME),
            Wire::Block => copy_name(self.alloc, BLOCK_NAME),
            Wire::Valid => copy_name(self.alloc, VALID_NAME),
            Wire::Stop => copy_name(self.alloc, STOP_NAME),
            Wire::Given(j) => self.name_one(b'd', j),
            Wire::Steady(bit) => self.name_one(b'c', u32::from(bit)),
            Wire::Fire(v) => self.name_one(b'f', v),
            Wire::May(v, i) => self.name_two(b'm', v, i),
            Wire::Level(s, i) => self.name_two(b'l', s, i),
            Wire::Grown(s, i) => self.name_two(b'g', s, i),
            Wire::Now(v, k) => self.name_two(b'n', v, k),
            Wire::Kept(v, k) => self.name_two(b'k', v, k),
            Wire::Later(v, k) => self.name_two(b'a', v, k),
            Wire::Place(s, i, j) => self.name_three(b'p', s, i, j),
            Wire::Moved(s, i, j) => self.name_three(b'q', s, i, j),
        }
    }

    /// The prefix, a letter and a number.
    fn name_one(&self, letter: u8, a: u32) -> Result<Name, AllocError>
        ensures { IfOk result (λ name. name ≡ inner_name self.now.prefix letter (a ∷ [])) }
    {
        let mut name = Vec::from_slice(self.alloc, self.naming.prefix)?;
        name.push(letter)?;
        append_number(u64::from(a), &mut name)?;
        Ok(Name::from_vec(name))
    }

    /// The prefix, a letter and two numbers.
    fn name_two(&self, letter: u8, a: u32, b: u32) -> Result<Name, AllocError>
        ensures { IfOk result (λ name. name ≡ inner_name self.now.prefix letter (a ∷ b ∷ [])) }
    {
        let mut name = Vec::from_slice(self.alloc, self.naming.prefix)?;
        name.push(letter)?;
        append_number(u64::from(a), &mut name)?;
        name.push(b'_')?;
        append_number(u64::from(b), &mut name)?;
        Ok(Name::from_vec(name))
    }

    /// The prefix, a letter and three numbers.
    fn name_three(&self, letter: u8, a: u32, b: u32, c: u32) -> Result<Name, AllocError>
        ensures { IfOk result (λ name. name ≡ inner_name self.now.prefix letter (a ∷ b ∷ c ∷ [])) }
    {
        let mut name = Vec::from_slice(self.alloc, self.naming.prefix)?;
        name.push(letter)?;
        append_number(u64::from(a), &mut name)?;
        name.push(b'_')?;
        append_number(u64::from(b), &mut name)?;
        name.push(b'_')?;
        append_number(u64::from(c), &mut name)?;
        Ok(Name::from_vec(name))
    }
}

/// A name of a list, and no bytes past the last.
fn port_name(alloc: Global, names: &[Name], j: u32) -> Result<Name, AllocError>
    ensures { IfOk result (λ name. name ≡ slice_index_or names.now j []) }
{
    match names.get(j as usize) {
        Some(name) => copy_name(alloc, name.as_slice()),
        None => Ok(Name::from_vec(Vec::new(alloc))),
    }
}

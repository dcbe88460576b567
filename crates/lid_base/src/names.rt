//! Names that contracts see as their bytes.

ghost use Rattle.std.specs.Prelude.{◌≡◌, ◌==◌, ◌++◌, length, IfOk, OnOk, OnErr};
ghost use Rattle.lid_base.specs.Lists.{ExtendsByPart};

use crate::items::Items;
use smallvec::SmallVec;
use std::alloc::{AllocError, Global};
use std::marker::Model;

/// A name: the bytes of one word. A contract sees the bytes. Of a copy up to 16 lie in the name itself, more in an
/// allocation.
#[derive(Drop)]
pub struct Name {
    bytes: SmallVec<u8, 16>,
}

impl Model for Name {
    ghost use Rattle.std.specs.Prelude.{ℕ, List};
    ghost use Rattle.std.specs.Coded.{coded_list, coded_ℕ};

    ghost Value = { List ℕ };

    ghost coded = { coded_list coded_ℕ };

    ghost view = { λ s. s.bytes.items };
}

impl Name {
    /// The name that a vector has. It takes no memory.
    pub fn from_vec(bytes: Vec<u8>) -> Name
        ensures { result ≡ bytes.items }
    {
        Name {
            bytes: SmallVec::from_vec(bytes),
        }
    }

    /// The bytes in order.
    pub fn as_slice(&self) -> &[u8]
        ensures { result.now ≡ self.now }
    {
        self.bytes.as_slice()
    }

    /// How many bytes there are.
    pub fn len(&self) -> usize
        ensures { result ≡ length self.now }
    {
        self.bytes.len()
    }

    /// Whether there is no byte.
    pub fn is_empty(&self) -> bool
        ensures { result ≡ (length self.now == 0) }
    {
        self.bytes.is_empty()
    }
}

/// A name with these bytes.
pub fn copy_name(alloc: Global, bytes: &[u8]) -> Result<Name, AllocError>
    ensures { IfOk result (λ name. name ≡ bytes.now) }
{
    Ok(Name {
        bytes: SmallVec::from_slice(alloc, bytes)?,
    })
}

/// Appends copies of the names.
///
/// # Errors
/// Copies of some first names may then be appended.
pub fn push_copies(alloc: Global, names: &[Name], into: &mut Vec<Name>) -> Result<(), AllocError>
    ensures ok { OnOk result (into.new.items ≡ into.old.items ++ names.now) }
    ensures err { OnErr result (ExtendsByPart into.old.items into.new.items names.now) }
{
    for name in names {
        into.push(copy_name(alloc, name.as_slice())?)?;
    }
    Ok(())
}

/// A copy of a list of names.
pub fn copy_names(alloc: Global, names: &[Name]) -> Result<Items<Name>, AllocError>
    ensures { IfOk result (λ copies. copies ≡ names.now) }
{
    let mut copies = Vec::with_capacity(alloc, names.len())?;
    push_copies(alloc, names, &mut copies)?;
    Ok(Items::from_vec(copies))
}

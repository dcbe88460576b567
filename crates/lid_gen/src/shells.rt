//! The instances of the root.

ghost use Rattle.std.specs.Prelude.{◌≡◌, ◌<◌, ◌++◌, ◌∷◌, [], IfOk, OnOk};
ghost use Rattle.lid_gen.specs.Designs.{bound, shell_binds, shell};

use crate::names::{before, letter, net_at, numbered, shell_net};
use lid_base::{Items, Name};
use lid_design::{Bind, Inst};
use std::alloc::{AllocError, Global};

/// Appends the binding of a formal of one letter.
fn push_bind(
    alloc: Global,
    formal: u8,
    actual: Name,
    binds: &mut Vec<Bind>,
) -> Result<(), AllocError>
    ensures { OnOk result (binds.new.items ≡ binds.old.items ++ bound (formal ∷ []) actual ∷ []) }
{
    let formal = letter(alloc, formal)?;
    binds.push(Bind { formal, actual })?;
    Ok(())
}

/// The bindings of a shell, with the net at a place.
fn binds(alloc: Global, number: u32, place: u32) -> Result<Items<Bind>, AllocError>
    ensures { IfOk result (λ binds. binds ≡ shell_binds number place) }
{
    let mut binds = Vec::with_capacity(alloc, 4)?;
    push_bind(alloc, b'a', before(alloc, number)?, &mut binds)?;
    push_bind(alloc, b'b', net_at(alloc, place)?, &mut binds)?;
    push_bind(alloc, b'q', shell_net(alloc, number, b'q')?, &mut binds)?;
    push_bind(alloc, b'r', shell_net(alloc, number, b'r')?, &mut binds)?;
    Ok(Items::from_vec(binds))
}

/// A shell of a kind, with the net at a place.
pub fn shell(alloc: Global, number: u32, kind: u32, place: u32) -> Result<Inst, AllocError>
    requires { kind < 4 }
    ensures { IfOk result (λ inst. inst ≡ shell number kind place) }
{
    let binds = binds(alloc, number, place)?;
    Ok(Inst {
        model: numbered(alloc, b"cel", kind)?,
        binds,
    })
}

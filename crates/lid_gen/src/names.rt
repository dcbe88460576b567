//! The names of nets and models.

ghost use Rattle.std.specs.Prelude.{◌≡◌, ◌<◌, ◌≤◌, ◌∷◌, [], IfOk};
ghost use Rattle.lid_base.specs.Each.{from_each};
ghost use Rattle.lid_gen.specs.Designs.{numbered, shell_net, letter_of, net_at, before};

use lid_base::{Items, Name, append_number};
use std::alloc::{AllocError, Global};

/// A word and a digit.
pub fn numbered(alloc: Global, word: &[u8], digit: u32) -> Result<Name, AllocError>
    requires { digit < 10 }
    ensures { IfOk result (λ name. name ≡ numbered word.now digit) }
{
    let mut name = Vec::from_slice(alloc, word)?;
    name.push(b'0' + digit as u8)?;
    Ok(Name::from_vec(name))
}

/// The names with this word and the digits from 0 to 3.
pub fn numbered_names(alloc: Global, word: &[u8]) -> Result<Items<Name>, AllocError>
    ensures { IfOk result (λ names. names ≡ from_each (numbered word.now) 0 4) }
{
    let mut names = Vec::with_capacity(alloc, 4)?;
    for digit in 0..4u32 {
        names.push(numbered(alloc, word, digit)?)?;
    }
    Ok(Items::from_vec(names))
}

/// The name of one letter.
pub fn letter(alloc: Global, letter: u8) -> Result<Name, AllocError>
    ensures { IfOk result (λ name. name ≡ letter ∷ []) }
{
    let mut name = Vec::new(alloc);
    name.push(letter)?;
    Ok(Name::from_vec(name))
}

/// The net at the output of a shell that has the letter.
pub fn shell_net(alloc: Global, shell: u32, letter: u8) -> Result<Name, AllocError>
    ensures { IfOk result (λ name. name ≡ shell_net shell letter) }
{
    let mut name = Vec::with_capacity(alloc, 8)?;
    name.push(b'n')?;
    append_number(u64::from(shell), &mut name)?;
    name.push(b'_')?;
    name.push(letter)?;
    Ok(Name::from_vec(name))
}

/// The net at a place of the list of nets: the inputs of the root, and then the two outputs of each shell.
pub fn net_at(alloc: Global, place: u32) -> Result<Name, AllocError>
    ensures { IfOk result (λ name. name ≡ net_at place) }
{
    if place < 4 {
        return numbered(alloc, b"x", place);
    }
    shell_net(alloc, (place - 4) / 2, letter_of((place - 4) % 2))
}

/// The letter of an output of a shell, by its place.
fn letter_of(place: u32) -> u8
    ensures { result ≡ letter_of place }
{
    if place == 0 { b'q' } else { b'r' }
}

/// The net that the first input of a shell is bound to: the first output of the shell before it.
pub fn before(alloc: Global, shell: u32) -> Result<Name, AllocError>
    ensures { IfOk result (λ name. name ≡ before shell) }
{
    if shell == 0 {
        return numbered(alloc, b"x", 0);
    }
    shell_net(alloc, shell - 1, b'q')
}

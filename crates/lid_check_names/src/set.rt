ghost use Rattle.std.specs.Prelude.{◌≡◌, ℕ, List, ◌<◌, ◌^◌, [], ◌∷◌, ◌++◌, not, if◌then◌else◌, length, position, slice_get, option_map, Some, IfOk, OnOk};
ghost use denote.Ref.{Bor};
ghost use Rattle.std.specs.Str.{bytes_eq};
ghost use Rattle.lid_design.specs.Models.{is_twice};
ghost use Rattle.lid_check_names.specs.Names.{is_among, firsts, with_name, texts, names_of, IsTally};

use crate::hashers::Hashers;
use crate::held::HeldName;
use indexmap::IndexSet;
use std::alloc::{AllocError, Global};
use std::marker::Model;

/// A set of names that lie elsewhere. A contract sees the list of its names, each once, in the
/// order in which they were added.
#[derive(Drop)]
pub struct NameSet<'a> {
    names: IndexSet<HeldName<'a>, Hashers>,
}

impl<'a> Model for NameSet<'a> {
    ghost use Rattle.std.specs.Prelude.{ℕ, List};
    ghost use Rattle.lid_check_names.specs.Names.{names_of};

    ghost Value = { List (List ℕ) };

    ghost view = { λ s. names_of s.names };
}

impl<'a> NameSet<'a> {
    /// A set without names.
    pub fn new(alloc: Global) -> NameSet<'a>
        ensures { result ≡ [] }
    {
        NameSet::by(alloc, Hashers::plain())
    }

    /// A set without names, that hashes by these hashers.
    fn by(alloc: Global, hashers: Hashers) -> NameSet<'a>
        ensures { result ≡ [] }
    {
        NameSet {
            names: IndexSet::with_hasher(alloc, hashers),
        }
    }

    /// A set without names, that is to take those of a list.
    pub fn for_names(alloc: Global, names: &[&[u8]]) -> NameSet<'a>
        ensures { result ≡ [] }
    {
        NameSet::by(alloc, Hashers::of(names))
    }

    /// A set of the names of a list.
    pub fn collect(alloc: Global, names: &[&'a [u8]]) -> Result<NameSet<'a>, AllocError>
        ensures { IfOk result (λ set. set ≡ firsts (texts names.now)) }
    {
        let mut set = NameSet::by(alloc, Hashers::of(names));
        for name in names {
            set.add(name)?;
        }
        Ok(set)
    }

    /// Adds a name after the others, unless it is there already, and answers whether it was new.
    pub fn add(&mut self, name: &'a [u8]) -> Result<bool, AllocError>
        ensures new { IfOk result (λ new. new ≡ not (is_among name.now self.old)) }
        ensures added { OnOk result (self.new ≡ with_name self.old name.now) }
    {
        add_to(&mut self.names, name)
    }

    /// Adds a name after the others, unless it is there already, and answers its place.
    pub fn enter(&mut self, name: &'a [u8]) -> Result<usize, AllocError>
        ensures place { IfOk result (λ place. slice_get self.new place ≡ Some name.now) }
        ensures added { OnOk result (self.new ≡ with_name self.old name.now) }
    {
        enter_in(&mut self.names, name)
    }

    /// Whether a name is in the set.
    pub fn has(&self, name: &[u8]) -> bool
        ensures { result ≡ is_among name.now self.now }
    {
        is_in(&self.names, name)
    }

    /// The place of a name in the set.
    pub fn place_of(&self, name: &[u8]) -> Option<usize>
        ensures { result ≡ position (bytes_eq name.now) self.now }
    {
        place_in(&self.names, name)
    }

    /// The name at a place.
    pub fn name_at(&self, place: usize) -> Option<&'a [u8]>
        ensures { option_map (λ (r : Bor (List ℕ)). r.now) result ≡ slice_get self.now place }
    {
        name_in(&self.names, place)
    }

    /// How many names there are.
    pub fn len(&self) -> usize
        ensures value { result ≡ length self.now }
        ensures small { length self.now < 2 ^ 63 }
    {
        self.names.len()
    }
}

/// The names of a list, and those of them that stand in it more than once.
#[derive(Drop)]
pub struct NameTally<'a> {
    /// Each name of the list.
    pub all: NameSet<'a>,
    /// The names that stand in the list more than once.
    pub twice: NameSet<'a>,
}

/// Collects the names of a list, and those of them that stand in it more than once.
pub fn tally_names<'a>(alloc: Global, names: &[&'a [u8]]) -> Result<NameTally<'a>, AllocError>
    ensures { IfOk result (λ tally. IsTally (texts names.now) tally.all tally.twice) }
{
    let hashers = Hashers::of(names);
    let mut all = NameSet::by(alloc, hashers);
    let mut twice = NameSet::by(alloc, hashers);
    for name in names {
        note(&mut all, &mut twice, name)?;
    }
    Ok(NameTally { all, twice })
}

/// The names that stand in a list more than once.
pub fn find_twice<'a>(alloc: Global, names: &[&'a [u8]]) -> Result<NameSet<'a>, AllocError>
    ensures { IfOk result (λ set. (name : List ℕ) → is_among name set ≡ is_twice (texts names.now) name) }
{
    let NameTally { twice, .. } = tally_names(alloc, names)?;
    Ok(twice)
}

/// Adds a name to those that came, and to those that came again where it had come before.
fn note<'a>(
    all: &mut NameSet<'a>,
    twice: &mut NameSet<'a>,
    name: &'a [u8],
) -> Result<(), AllocError>
    ensures all { OnOk result (all.new ≡ with_name all.old name.now) }
    ensures twice { OnOk result (twice.new ≡ (if is_among name.now all.old then with_name twice.old name.now else twice.old)) }
{
    let new = all.add(name)?;
    if !new {
        twice.add(name)?;
    }
    Ok(())
}

/// Adds a name after the others, unless it is there already, and answers whether it was new.
fn add_to<'a>(set: &mut IndexSet<HeldName<'a>, Hashers>, name: &'a [u8]) -> Result<bool, AllocError>
    ensures new { IfOk result (λ new. new ≡ not (is_among name.entry.now (names_of set.old))) }
    ensures added { OnOk result (names_of set.new ≡ with_name (names_of set.old) name.entry.now) }
{
    let (_, new) = set.insert_full(HeldName { bytes: name })?;
    Ok(new)
}

/// Adds a name after the others, unless it is there already, and answers its place.
fn enter_in<'a>(
    set: &mut IndexSet<HeldName<'a>, Hashers>,
    name: &'a [u8],
) -> Result<usize, AllocError>
    ensures place { IfOk result (λ place. slice_get (names_of set.new) place ≡ Some name.entry.now) }
    ensures added { OnOk result (names_of set.new ≡ with_name (names_of set.old) name.entry.now) }
{
    let (place, _) = set.insert_full(HeldName { bytes: name })?;
    Ok(place)
}

/// Whether a name is in a set.
fn is_in(set: &IndexSet<HeldName<'_>, Hashers>, name: &[u8]) -> bool
    ensures { result ≡ is_among name.now (names_of set.now) }
{
    set.contains(&HeldName { bytes: name })
}

/// The place of a name in a set.
fn place_in(set: &IndexSet<HeldName<'_>, Hashers>, name: &[u8]) -> Option<usize>
    ensures { result ≡ position (bytes_eq name.now) (names_of set.now) }
{
    set.get_index_of(&HeldName { bytes: name })
}

/// The name at a place of a set.
fn name_in<'a>(set: &IndexSet<HeldName<'a>, Hashers>, place: usize) -> Option<&'a [u8]>
    ensures { option_map (λ (r : Bor (List ℕ)). r.now) result ≡ slice_get (names_of set.now) place }
{
    match set.get_index(place) {
        Some(held) => Some(held.bytes),
        None => None,
    }
}

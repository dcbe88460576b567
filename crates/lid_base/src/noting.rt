//! A shelf or a sink round another one, which notes the calls.

ghost use Rattle.std.specs.Prelude.{◌≡◌, ◌∷◌, [], Option, Some, None, option_map, IfOk, OnErr};
ghost use Rattle.std.specs.Option.{option_copied};
ghost use Rattle.lid_base.specs.Outside.{Came, one_fetch};

use crate::items::{Bytes, Items};
use crate::names::copy_name;
use crate::outside::{Fetch, Shelf, ShelfFailed, Sink, SinkFailed};
use std::alloc::{AllocError, Global};

/// A shelf or a sink round another one, which hands each call on, notes it, and tells the calls. Where
/// there is no memory for a note it ceases to tell; no call fails for that.
#[derive(Drop)]
pub struct Noting<S: Drop, C: Drop> {
    inside: S,
    alloc: Global,
    calls: Option<Vec<C>>,
}

/// The calls with one more, where there is memory for it.
fn note<C: Drop>(calls: Option<Vec<C>>, call: Result<C, AllocError>) -> Option<Vec<C>>
    ensures noted { IfOk call (λ c. Came (option_map (λ v. v.items) calls) (option_map (λ v. v.items) result) (c ∷ [])) }
    ensures wanting { OnErr call (result ≡ None) }
{
    let Some(mut calls) = calls else {
        return None;
    };
    let Ok(call) = call else {
        return None;
    };
    match calls.push(call) {
        Ok(()) => Some(calls),
        Err(_) => None,
    }
}

/// A call of `fetch`.
fn fetch_of(alloc: Global, name: &str, at: u64, room: usize) -> Result<Fetch, AllocError>
    ensures { IfOk result (λ call. call ∷ [] ≡ one_fetch name.now at room) }
{
    let name = copy_name(alloc, name.as_bytes())?;
    Ok(Fetch { name, at, room })
}

/// A copy of a piece.
fn copy_piece(alloc: Global, piece: &[u8]) -> Result<Bytes, AllocError>
    ensures { IfOk result (λ call. call ≡ piece.now) }
{
    Ok(Items::from_vec(Vec::from_slice(alloc, piece)?))
}

impl<S: Drop, C: Drop> Noting<S, C> {
    /// Round this shelf or sink, with no call noted so far.
    pub fn new(alloc: Global, inside: S) -> Noting<S, C>
        ensures inside { result.inside ≡ inside }
        ensures calls { option_map (λ v. v.items) result.calls ≡ Some [] }
    {
        Noting {
            inside,
            alloc,
            calls: Some(Vec::new(alloc)),
        }
    }

    /// The shelf or the sink.
    pub fn inside(&self) -> &S
        ensures { result.now ≡ self.now.inside }
    {
        &self.inside
    }

    /// The calls so far, where they are told.
    pub fn calls(&self) -> Option<&[C]>
        ensures { option_copied result ≡ option_map (λ v. v.items) self.now.calls }
    {
        match &self.calls {
            None => None,
            Some(calls) => Some(calls.as_slice()),
        }
    }
}

impl<S: Shelf + Drop> Shelf for Noting<S, Fetch> {
    ghost held = { λ s. S.held s.inside };

    ghost faults = { λ s. S.faults s.inside };

    ghost fetches = { λ s. option_map (λ v. v.items) s.calls };

    ghost whole = { S.whole };

    fn fetch(&mut self, name: &str, at: u64, into: &mut [u8]) -> Result<usize, ShelfFailed> {
        let call = fetch_of(self.alloc, name, at, into.len());
        self.calls = note(self.calls.take(), call);
        self.inside.fetch(name, at, into)
    }
}

impl<S: Sink + Drop> Sink for Noting<S, Bytes> {
    ghost written = { λ s. S.written s.inside };

    ghost faults = { λ s. S.faults s.inside };

    ghost pieces = { λ s. option_map (λ v. v.items) s.calls };

    fn write(&mut self, piece: &[u8]) -> Result<(), SinkFailed> {
        let call = copy_piece(self.alloc, piece);
        self.calls = note(self.calls.take(), call);
        self.inside.write(piece)
    }
}

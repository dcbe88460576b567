//! The places of a station.

ghost use Rattle.std.specs.Prelude.{◌≡◌, ◌<◌, ◌%◌, length, replicate, set, slice_index_or, IfOk};

use std::alloc::{AllocError, Global};
use std::marker::Model;

/// Two tokens, or a list of them.
#[derive(Drop)]
pub enum Kept {
    /// Two, which take no memory of their own.
    Two([u32; 2]),
    /// Any number.
    More(Vec<u32>),
}

/// The places of a station, one for each token that it holds at most. Most stations have two.
#[derive(Drop)]
pub struct Places {
    kept: Kept,
}

impl Model for Places {
    ghost use Rattle.std.specs.Prelude.{ℕ, List};
    ghost use Rattle.lid_clock.specs.Places.{kept_tokens, IsKept};

    ghost Value = { List ℕ };

    ghost view = { λ p. kept_tokens p.kept };

    ghost invariant = { λ p. IsKept p.kept };
}

impl Places {
    /// So many places, each with token 0.
    ///
    /// # Errors
    /// Want of memory.
    pub fn new(alloc: Global, count: usize) -> Result<Places, AllocError>
        ensures { IfOk result (λ places. places ≡ replicate count 0) }
    {
        let kept = if count == 2 {
            Kept::Two([0, 0])
        } else {
            Kept::More(Vec::from_elem(alloc, 0u32, count)?)
        };
        Ok(Places { kept })
    }

    /// How many there are.
    pub fn len(&self) -> usize
        ensures { result ≡ length self.now }
    {
        match &self.kept {
            Kept::Two(_) => 2,
            Kept::More(tokens) => tokens.len(),
        }
    }

    /// The place of a number, counted round and round.
    pub fn place_of(&self, number: u64) -> usize
        requires { 0 < length self.now }
        ensures { result ≡ number % length self.now }
    {
        match &self.kept {
            Kept::Two(_) => (number % 2) as usize,
            Kept::More(tokens) => (number % tokens.len() as u64) as usize,
        }
    }

    /// The token at a place.
    pub fn at(&self, place: usize) -> u32
        requires { place < length self.now }
        ensures { result ≡ slice_index_or self.now place 0 }
    {
        match &self.kept {
            Kept::Two(tokens) => tokens[place],
            Kept::More(tokens) => tokens[place],
        }
    }

    /// Puts a token at a place.
    pub fn put(&mut self, place: usize, token: u32)
        requires { place < length self.old }
        ensures { self.new ≡ set self.old place token }
    {
        match &mut self.kept {
            Kept::Two(tokens) => tokens[place] = token,
            Kept::More(tokens) => tokens[place] = token,
        }
    }

    /// The tokens at all places.
    pub fn as_slice(&self) -> &[u32]
        ensures { result.now ≡ self.now }
    {
        match &self.kept {
            Kept::Two(tokens) => tokens.as_slice(),
            Kept::More(tokens) => tokens.as_slice(),
        }
    }
}

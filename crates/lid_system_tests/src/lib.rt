//! Tests of flat parts, of pearls and of tokens. What is expected was told by an independent reading of the manual
//! (`tools/dev/reference.py`), or worked out by hand.
#![tactic(auto)]

#[cfg(test)]
mod flats;
#[cfg(test)]
mod registers;
#[cfg(test)]
mod tokens;

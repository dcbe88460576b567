//! Laws of wrapped designs: what designs under names do that are made of accepted designs, and how many cells they have
//! and how long their texts are, by their size.
#![tactic(auto)]

mod bounds;
mod laws;

pub use bounds::{wrapped_designs_are_small, wrapped_designs_have_short_texts};
pub use laws::emitted_designs_run;

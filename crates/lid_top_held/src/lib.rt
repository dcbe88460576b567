//! The commands whose runs hold their rows at hand, `free`, `walk` and `wave`; and `unwave`, the trace that a dump shows.
#![tactic(auto)]

mod dumping;
mod freeing;
mod held;
mod run;
mod unwave;
mod walking;
mod waving;

pub use held::run_text;
pub use run::{Asked, HeldRun};
pub use unwave::unwave_text;

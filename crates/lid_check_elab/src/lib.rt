//! The elaboration of a design: its columns by their numbers, and what drives each of them.
#![tactic(auto)]

mod bound;
mod covers;
mod driven;
mod driver;
mod elaboration;
mod finding;
mod picks;
mod places;
mod placing;
mod reads;
mod sizes;
mod template;

pub use covers::cover_at;
pub use driver::ColumnDriver;
pub use elaboration::{Columns, Elaboration, elaborate};
pub use finding::find_column;
pub use reads::find_reads;

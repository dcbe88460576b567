//! The commands that write nothing before their output is whole: `check`, `strict`, `place`, `rate`, `verify`, `slack` and
//! `size`.
#![tactic(auto)]

mod check;
mod place;
mod strict;
mod telling;
mod verify;

pub use check::check_text;
pub use place::place_text;
pub use strict::strict_text;
pub use telling::{Telling, telling_text};
pub use verify::verify_text;

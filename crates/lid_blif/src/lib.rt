//! The reader of BLIF texts (Berkeley Logic Interchange Format): what design a text stands for, and
//! why a text stands for none.
#![tactic(auto)]

mod cells;
mod context;
mod cutting;
mod fault;
mod keyword;
mod line;
mod models;
mod physical;
mod reader;
mod scan;
mod shapes;
mod words;

pub use fault::BlifFault;
pub use reader::read;

//! Symbolic code: instructions, with what has no number yet by its name.
#![tactic(auto)]

mod item;

pub use item::{SymCode, SymItem};

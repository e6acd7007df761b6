//! Declarators.

mod brackets;
mod declared;
mod lengths;
mod parser;

pub use brackets::bracketed;
pub use declared::Declared;
pub use parser::{declarator, starred};

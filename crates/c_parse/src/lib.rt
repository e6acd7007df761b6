//! The parser: from the tokens of a text to its program.
#![tactic(auto)]

mod behind;
mod externals;
mod head;
mod parser;
mod refusal;
mod whole;
mod words;

pub use refusal::ParseRefusal;
pub use whole::parse;

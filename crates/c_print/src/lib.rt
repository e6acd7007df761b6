//! Lexemes that spell a program.
#![tactic(auto)]

mod declaration;
mod expr;
mod parameter;
mod program;
mod statement;
mod types;
mod words;

pub use program::print;

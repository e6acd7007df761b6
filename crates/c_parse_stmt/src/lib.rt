//! The parser of statements.
#![tactic(auto)]

mod block_read;
mod clause_read;
mod clauses;
mod last;
mod node;
mod parser;
mod statement_read;
mod words;

pub use block_read::BlockRead;
pub use parser::block;

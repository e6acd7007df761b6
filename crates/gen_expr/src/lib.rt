//! The symbolic code of expressions.
#![tactic(auto)]

mod assign;
mod assigned;
mod binary;
mod call;
mod choice;
mod destination;
mod known;
mod value;

pub use value::expression;

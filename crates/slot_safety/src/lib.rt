//! Which parameters and locals of a function have to be tagged.
#![tactic(auto)]

mod constant;
mod expr;
mod function;
mod kind;
mod mark;
mod seen;
mod statement;

pub use function::classify;
pub use kind::Kind;
pub use seen::{Path, Seen};

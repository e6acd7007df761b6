//! The parser of expressions.
#![tactic(auto)]

mod assignment;
mod begins;
mod measured;
mod node;
mod operator;
mod parser;
mod plain;
mod prefix;
mod suffix;

pub use begins::begins_expression;
pub use measured::Measured;
pub use parser::{conditional, expression};

//! The A64 instructions as lines of assembly, for reports and for people.
#![tactic(auto)]

mod assembly;
mod condition;
mod line;
mod operand;
mod operands;

pub use assembly::Assembly;

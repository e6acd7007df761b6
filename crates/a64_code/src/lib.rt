//! The A64 instructions that mtcc makes and runs, and their words: one table, read both ways.
#![tactic(auto)]

mod code;
mod end;
mod find;
mod first_rows;
mod instr;
mod line;
mod parts;
mod place;
mod reading;
mod register;
mod rows;
mod table;

pub use code::{decode, encode};
pub use end::MachineEnd;
pub use instr::{Instr, Reg};
pub use register::RegisterField;

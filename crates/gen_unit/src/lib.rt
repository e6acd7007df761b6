//! The code of a translation unit: the words of its functions, and what they want of the linker.
#![tactic(auto)]

mod code;
mod function;
mod items;
mod jumps;
mod labels;
mod lengths;
mod lists;
mod output;
mod parts;
mod scopes;
mod table;
mod units;

pub use parts::{CodeReloc, CodeTarget, Place, UnitCode};
pub use units::unit;

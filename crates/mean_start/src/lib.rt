//! What a program's run starts with: what the names of its files stand for, and its blocks before the call of `main`.
#![tactic(auto)]

mod agreement;
mod entry;
mod file;
mod linking;
mod names;
mod objects;
mod opening;
mod pieces;
mod places;
mod program;
mod starts;
mod zero;

pub use entry::main_of;
pub use file::{Called, Extern, File, FrameSizes, FunctionId};
pub use opening::opened;
pub use places::put_cells;
pub use program::files;
pub use zero::zero_cells;

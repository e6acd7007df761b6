//! The command `link`: object files, read in turn, and the image of their objects, written to a file.
#![tactic(auto)]

mod linked;
mod object;

pub use linked::write_linked;

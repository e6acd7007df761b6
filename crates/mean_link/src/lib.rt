//! The link of typed files, before they are compiled: whether each name that they leave to others is defined once.
#![tactic(auto)]

mod files;
mod judge;
mod known;
mod names;
mod statements;
mod uses;

pub use files::link;
pub use names::{FileNames, names_of};

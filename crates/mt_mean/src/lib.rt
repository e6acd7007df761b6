//! The command `mean`: sources, read and typed in turn, and the run of what they mean together.
#![tactic(auto)]

mod file;
mod run;

pub use run::mean_sources;

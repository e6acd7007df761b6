//! What the words after the program's name ask for, read by `clap`.
#![tactic(auto)]

mod given;
mod job;
mod numbers;
mod options;
mod words;

pub use job::{Job, MeanOptions, RunOptions};
pub use words::job_of;

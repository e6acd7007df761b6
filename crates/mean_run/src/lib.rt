//! The run of a program over its memory, step by step: its scopes and calls, and how it begins.
#![tactic(auto)]

mod arguments;
mod beginning;
mod calls;
mod entry;
mod flows;
mod locals;
mod process;
mod scopes;
mod steps;

pub use beginning::{before, begin};
pub use calls::call;
pub use process::Process;
pub use steps::step;

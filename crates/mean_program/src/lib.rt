//! The run of a program's files: what it means, over a source and a sink.
#![tactic(auto)]

mod end;
mod turn;
mod whole;

pub use end::{MeanEnd, MeanFault};
pub use whole::mean;

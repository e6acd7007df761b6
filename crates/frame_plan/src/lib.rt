//! The frames of a program's functions, as lines of text or as numbers of bytes.
#![tactic(auto)]

mod lines;
mod refusal;
mod sizes;

pub use lines::plan;
pub use refusal::PlanRefusal;
pub use sizes::frame_sizes;

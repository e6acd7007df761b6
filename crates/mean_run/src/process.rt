//! A run between two of its steps.

use mean_effects::{Here, Now};
use mean_expressions::Frame;

/// What a run has between two of its steps.
#[derive(Drop)]
pub struct Process<'a> {
    pub now: Now,
    /// The blocks of the locals of all open calls, where they are alive.
    pub locals: Vec<Option<u64>>,
    pub stack: Vec<Frame<'a>>,
    pub here: Here<'a>,
}

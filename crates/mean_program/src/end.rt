//! How a program ends, and why its run fails.

use block_meaning::Reason;
use c_ast::Span;

/// How a program ends.
#[derive(Clone, Copy)]
pub enum MeanEnd {
    /// Its status.
    Done(u8),
    /// A division by 0.
    Divide,
    /// The frames of the open calls pass the stack.
    Deep,
    /// No unit of work is left.
    More,
    /// A step that C leaves undefined: why, the number of the file, and where in it.
    Undefined { why: Reason, file: u32, span: Span },
}

/// Why the run of a program fails.
#[derive(Clone, Copy)]
pub enum MeanFault {
    /// 20: the source failed.
    InputFault,
    /// 21: the sink failed.
    OutputFault,
    /// The host has no memory left.
    NoMemory,
}

impl MeanFault {
    /// The refusal's number: 20 or 21, and 0 for want of memory.
    pub fn number(self) -> u8 {
        match self {
            MeanFault::InputFault => 20,
            MeanFault::OutputFault => 21,
            MeanFault::NoMemory => 0,
        }
    }
}

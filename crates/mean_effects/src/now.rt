//! What a run changes, and how it stops before its end.

use block_meaning::Reason;
use c_ast::Span;
use mean_memory::Memory;

/// Why a run stops.
#[derive(Clone, Copy)]
pub enum Ending {
    /// A division by 0.
    Divide,
    /// The frames pass the stack.
    Deep,
    /// No unit of work is left.
    More,
    /// A step has no meaning: why, in which file, and where in it.
    Undefined(Reason, u32, Span),
    /// The host has no memory left.
    NoMemory,
}

/// The blocks, the units of work that are left, and how many calls there were.
#[derive(Drop)]
pub struct Now {
    pub memory: Memory,
    pub work: u64,
    pub calls: u64,
}

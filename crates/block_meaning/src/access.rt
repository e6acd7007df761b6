// How memory is accessed.

use crate::value::Pointer;

/// What is accessed, and how.
#[derive(Clone, Copy)]
pub struct Access {
    pub at: Pointer,
    /// In bytes.
    pub size: u64,
    pub align: u64,
    pub writes: bool,
    /// A scalar, and else a struct.
    pub scalar: bool,
}

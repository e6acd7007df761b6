//! Where something runs.

use c_type_base::{LocalInfo, StructInfo};
use mean_start::File;

/// The files of the program, the bytes of its stack, and the call that runs.
#[derive(Clone, Copy)]
pub struct Here<'a> {
    pub files: &'a [File<'a>],
    /// The bytes that the frames of the open calls may have together.
    pub stack: u64,
    /// The number of the file of the function that runs.
    pub unit: u32,
    pub structs: &'a [StructInfo],
    /// The parameters and locals of the function that runs.
    pub locals: &'a [LocalInfo],
    /// How many calls were made before this one.
    pub call: u64,
    /// The frame bytes of the open calls, its own among them.
    pub place: u64,
    /// Where the blocks of its locals begin among those of all open calls.
    pub base: usize,
}

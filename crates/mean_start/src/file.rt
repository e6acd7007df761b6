//! The files of a program, with what their names stand for.

use c_type_base::Typed;

/// A function, by the number of its file and its own there.
#[derive(Clone, Copy)]
pub struct FunctionId {
    pub unit: u32,
    pub number: u32,
}

/// What a call of a declared function reaches.
#[derive(Clone, Copy)]
pub enum Called {
    /// No file defines the name.
    Missing,
    /// It is an object, or a function of another type.
    OtherType,
    Function(FunctionId),
}

/// What a name stands for that a file declares and another defines.
#[derive(Clone, Copy)]
pub struct Extern {
    /// Of the object or function, if a file defines it.
    pub block: Option<u64>,
    /// What a call of it reaches.
    pub called: Called,
}

/// A typed file with what its names stand for.
#[derive(Drop)]
pub struct File<'a> {
    pub typed: &'a Typed,
    /// The bytes of its functions' frames, in the order of the functions.
    pub frames: &'a [u64],
    /// The block of its first object; the others follow in their order.
    pub objects: u64,
    /// The block of its first text; the others follow.
    pub texts: u64,
    /// The block of its first function; the others follow.
    pub functions: u64,
    /// What the names stand for that other files define, in the order of the file.
    pub externs: Vec<Extern>,
}

/// The bytes of the frames of all functions, file by file.
#[derive(Drop)]
pub struct FrameSizes {
    pub bytes: Vec<Vec<u64>>,
}

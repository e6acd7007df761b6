//! Types with their names resolved.

use c_ast::IntType;
use sqlite_items::Boxed;

/// A type (C11 6.2.5).
#[derive(Drop)]
pub enum Ty {
    Void,
    Int(IntType),
    Pointer(Boxed<Ty>),
    /// The type of an element, and how many there are.
    Array(Boxed<Ty>, u64),
    /// By its number among the structs of the program.
    Struct(u32),
}

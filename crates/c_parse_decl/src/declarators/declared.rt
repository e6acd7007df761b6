//! What a parser of declarators gives.

use c_ast::{CType, Name, Span};

/// A name with its type.
#[derive(Drop)]
pub struct Declared {
    /// Empty where a parameter has none.
    pub name: Name,
    pub ty: CType,
    /// How many levels the type has below the declaration: one for each star and each pair of brackets, and those of the lengths.
    pub height: u32,
    /// From the first token to the last one.
    pub span: Span,
}

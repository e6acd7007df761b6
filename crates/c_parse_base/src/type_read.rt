//! What a parser of type names gives.

use c_ast::CType;

/// A type, and what its words tell beside it.
#[derive(Drop)]
pub struct TypeRead {
    pub ty: CType,
    /// How many stars there are: each is a level.
    pub height: u32,
    /// The number of the byte behind the last token.
    pub end: u32,
}

//! What a parser of initializers gives.

use c_ast::Init;

/// An initializer.
#[derive(Drop)]
pub struct InitRead {
    pub init: Init,
    /// How many levels it has below the level of its expression, which is one below its own. A list in braces has none of its own
    /// at that level, and one below.
    pub height: u32,
    /// The number of the byte behind the last token.
    pub end: u32,
}

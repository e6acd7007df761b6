//! What a parser of blocks gives.

use c_ast::Stmt;

/// A block.
#[derive(Drop)]
pub struct BlockRead {
    pub tree: Stmt,
    /// How many levels there are below it.
    pub height: u32,
    /// The number of the byte behind the last token.
    pub end: u32,
}

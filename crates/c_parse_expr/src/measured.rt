//! What a parser of expressions gives.

use c_ast::Expr;

/// An expression, and the number of levels below it.
#[derive(Drop)]
pub struct Measured {
    pub tree: Expr,
    pub height: u32,
}

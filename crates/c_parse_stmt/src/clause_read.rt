//! What parsers of the parts of a statement give.

use c_ast::{Decl, Expr};
use sqlite_items::Items;

/// An expression that may be left out, with the token that closes it.
#[derive(Drop)]
pub struct MaybeRead {
    pub tree: Option<Expr>,
    /// How many levels it has, none where it is left out.
    pub height: u32,
    /// The number of the byte behind the closing token.
    pub end: u32,
}

/// What comes first in a `for`: declarations, or an expression that may be left out.
#[derive(Drop)]
pub struct FirstRead {
    pub decls: Items<Decl>,
    pub tree: Option<Expr>,
    /// How many levels it has.
    pub height: u32,
}

/// What stands in the parentheses of a `for`.
#[derive(Drop)]
pub struct ForHead {
    pub first: FirstRead,
    pub condition: MaybeRead,
    pub step: MaybeRead,
}

//! What a parser of a struct's body gives.

use c_ast::Decl;
use sqlite_items::Items;

/// A struct's members.
#[derive(Drop)]
pub struct BodyRead {
    pub members: Items<Decl>,
    /// How many levels there are below a member.
    pub height: u32,
    /// The number of the byte behind the last token.
    pub end: u32,
}

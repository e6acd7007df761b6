//! What a parser of statements gives.

use c_ast::{Item, Stmt};
use sqlite_items::{Boxed, Items};

/// A statement.
#[derive(Drop)]
pub struct StatementRead {
    pub tree: Boxed<Stmt>,
    /// How many levels there are below it.
    pub height: u32,
    /// Whether no `else` behind it would belong to an `if` in it.
    pub closed: bool,
}

/// A part of a block.
#[derive(Drop)]
pub struct ItemRead {
    pub item: Item,
    /// How many levels there are below it.
    pub height: u32,
}

/// The parts of a block.
#[derive(Drop)]
pub struct ItemsRead {
    pub items: Items<Item>,
    /// How many levels they have.
    pub height: u32,
}

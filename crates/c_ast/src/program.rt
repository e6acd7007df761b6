//! A whole text as a tree.

use crate::declaration::{Decl, Storage, StructDecl};
use crate::expr::CType;
use crate::names::Name;
use crate::statement::Stmt;
use crate::token::Span;
use sqlite_items::Items;

/// A translation unit (C11 6.9).
#[derive(Drop)]
pub struct Program {
    pub items: Items<External>,
}

/// A part of a translation unit (C11 6.9).
#[derive(Drop)]
pub enum External {
    /// The line `#include <stdio.h>`.
    Include,
    /// A struct declaration, also one that heads the item behind it.
    Struct(StructDecl),
    Objects(Storage, Items<Decl>),
    Function(Function),
}

/// A function's declaration, or its definition where it has a body (C11 6.7.6.3, 6.9.1).
#[derive(Drop)]
pub struct Function {
    pub storage: Storage,
    pub name: Name,
    pub result: CType,
    pub params: Items<Decl>,
    /// A block.
    pub body: Option<Stmt>,
    pub span: Span,
}

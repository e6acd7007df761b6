//! Statements with their types.

use crate::expr::TExpr;
use c_ast::Span;
use sqlite_items::{Boxed, Items};

/// A statement (C11 6.8).
#[cycle(tstmt)]
#[derive(Drop)]
pub enum TStmt {
    Block(Items<TItem>),
    Expr(TExpr),
    /// `;`
    Empty,
    /// The condition, the statement, and the one behind `else`.
    If(TExpr, Boxed<TStmt>, Option<Boxed<TStmt>>),
    While(TExpr, Boxed<TStmt>),
    DoWhile(Boxed<TStmt>, TExpr),
    /// The declarations or the expression that come first, the condition, the expression of each turn's end, and the body.
    For(Items<TDecl>, Option<TExpr>, Option<TExpr>, Option<TExpr>, Boxed<TStmt>),
    Return(Option<TExpr>, Span),
    Break(Span),
    Continue(Span),
}

/// A part of a block (C11 6.8.2).
#[cycle(tstmt)]
#[derive(Drop)]
pub enum TItem {
    Local(Items<TDecl>),
    Stmt(TStmt),
}

/// The declaration of a local.
#[derive(Drop)]
pub struct TDecl {
    /// Its number among the function's parameters and locals.
    pub local: u32,
    pub init: Option<TInit>,
    pub span: Span,
}

/// What a local is initialised with (C11 6.7.9).
#[derive(Drop)]
pub enum TInit {
    One(TExpr),
    /// A list in braces, and where it stands.
    List(Items<TInit>, Span),
}

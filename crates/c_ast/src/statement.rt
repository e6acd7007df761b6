//! Statements.

use crate::declaration::Decl;
use crate::expr::Expr;
use crate::token::Span;
use sqlite_items::{Boxed, Items};

/// A statement (C11 6.8).
#[cycle(stmt)]
#[derive(Drop)]
pub enum Stmt {
    Block(Items<Item>),
    Expr(Expr),
    /// `;`
    Empty,
    /// The condition, the statement, and the one behind `else`.
    If(Expr, Boxed<Stmt>, Option<Boxed<Stmt>>),
    While(Expr, Boxed<Stmt>),
    DoWhile(Boxed<Stmt>, Expr),
    /// The declarations or the expression that come first, the condition, the expression of each turn's end, and the body.
    /// Where there are declarations, there is no first expression.
    For(Items<Decl>, Option<Expr>, Option<Expr>, Option<Expr>, Boxed<Stmt>),
    Return(Option<Expr>, Span),
    Break(Span),
    Continue(Span),
}

/// A part of a block (C11 6.8.2).
#[cycle(stmt)]
#[derive(Drop)]
pub enum Item {
    Local(Items<Decl>),
    Stmt(Stmt),
}

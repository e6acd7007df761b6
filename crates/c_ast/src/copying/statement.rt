//! Copies of statements.

ghost use Rattle.std.specs.Prelude.{◌≡◌, IfOk};

use crate::copying::declaration::copy_decls;
use crate::copying::expr::copy_expr;
use crate::declaration::Decl;
use crate::expr::Expr;
use crate::statement::{Item, Stmt};
use sqlite_items::{Boxed, Items};
use std::alloc::{AllocError, Global};

fn copy_optional(alloc: Global, expr: &Option<Expr>) -> Result<Option<Expr>, AllocError>
    ensures { IfOk result (λ copied. copied ≡ expr.now) }
{
    match expr {
        None => Ok(None),
        Some(expr) => Ok(Some(copy_expr(alloc, expr)?)),
    }
}

#[cycle(stmt)]
pub fn copy_stmt(alloc: Global, stmt: &Stmt) -> Result<Stmt, AllocError>
    ensures { IfOk result (λ copied. copied ≡ stmt.now) }
{
    match stmt {
        Stmt::Block(items) => Ok(Stmt::Block(copy_items(alloc, items.as_slice())?)),
        Stmt::Expr(expr) => Ok(Stmt::Expr(copy_expr(alloc, expr)?)),
        Stmt::Empty => Ok(Stmt::Empty),
        Stmt::If(condition, then, other) => {
            let then = copy_boxed(alloc, then)?;
            let other = match other {
                None => None,
                Some(other) => Some(copy_boxed(alloc, other)?),
            };
            Ok(Stmt::If(copy_expr(alloc, condition)?, then, other))
        }
        Stmt::While(condition, body) => {
            let body = copy_boxed(alloc, body)?;
            Ok(Stmt::While(copy_expr(alloc, condition)?, body))
        }
        Stmt::DoWhile(body, condition) => Ok(Stmt::DoWhile(
            copy_boxed(alloc, body)?,
            copy_expr(alloc, condition)?,
        )),
        Stmt::For(decls, first, condition, next, body) => {
            let body = copy_boxed(alloc, body)?;
            copy_for(alloc, decls.as_slice(), first, condition, next, body)
        }
        Stmt::Return(value, span) => Ok(Stmt::Return(copy_optional(alloc, value)?, *span)),
        Stmt::Break(span) => Ok(Stmt::Break(*span)),
        Stmt::Continue(span) => Ok(Stmt::Continue(*span)),
    }
}

fn copy_for(
    alloc: Global,
    decls: &[Decl],
    first: &Option<Expr>,
    condition: &Option<Expr>,
    next: &Option<Expr>,
    body: Boxed<Stmt>,
) -> Result<Stmt, AllocError>
    ensures { IfOk result (λ copied. copied ≡ Stmt.For decls.now first.now condition.now next.now body) }
{
    let decls = copy_decls(alloc, decls)?;
    let first = copy_optional(alloc, first)?;
    let condition = copy_optional(alloc, condition)?;
    let next = copy_optional(alloc, next)?;
    Ok(Stmt::For(decls, first, condition, next, body))
}

#[cycle(stmt)]
fn copy_boxed(alloc: Global, stmt: &Boxed<Stmt>) -> Result<Boxed<Stmt>, AllocError>
    ensures { IfOk result (λ copied. copied ≡ stmt.now) }
{
    let copied = copy_stmt(alloc, stmt.get())?;
    Boxed::new(alloc, copied)
}

#[cycle(stmt)]
fn copy_items(alloc: Global, items: &[Item]) -> Result<Items<Item>, AllocError>
    ensures { IfOk result (λ copied. copied ≡ items.now) }
{
    let mut copied = Items::new(alloc);
    for item in items {
        copied.push(copy_item(alloc, item)?)?;
    }
    Ok(copied)
}

#[cycle(stmt)]
fn copy_item(alloc: Global, item: &Item) -> Result<Item, AllocError>
    ensures { IfOk result (λ copied. copied ≡ item.now) }
{
    match item {
        Item::Local(decls) => Ok(Item::Local(copy_decls(alloc, decls.as_slice())?)),
        Item::Stmt(stmt) => Ok(Item::Stmt(copy_stmt(alloc, stmt)?)),
    }
}

//! Statements.

use super::Shape;
use super::declaration::decls;
use super::expr::expr;
use c_ast::{Expr, Item, Stmt};

/// An expression that may be left out: `-` stands for none.
fn maybe(to: &mut Shape, e: &Option<Expr>) {
    match e {
        None => to.put("-"),
        Some(e) => expr(to, e),
    }
}

#[cycle(stmt)]
pub fn stmt(to: &mut Shape, s: &Stmt) {
    match s {
        Stmt::Block(items) => {
            to.put("{");
            for (index, item) in items.as_slice().iter().enumerate() {
                if index > 0 {
                    to.put(" ");
                }
                part(to, item);
            }
            to.put("}");
        }
        Stmt::Expr(e) => {
            to.put("(expr ");
            expr(to, e);
            to.put(")");
        }
        Stmt::Empty => to.put("(empty)"),
        Stmt::If(e, inner, other) => {
            to.put("(if ");
            expr(to, e);
            to.put(" ");
            stmt(to, inner.get());
            if let Some(other) = other {
                to.put(" else ");
                stmt(to, other.get());
            }
            to.put(")");
        }
        Stmt::While(e, inner) => {
            to.put("(while ");
            expr(to, e);
            to.put(" ");
            stmt(to, inner.get());
            to.put(")");
        }
        Stmt::DoWhile(inner, e) => {
            to.put("(do ");
            stmt(to, inner.get());
            to.put(" while ");
            expr(to, e);
            to.put(")");
        }
        Stmt::For(local, first, condition, each, inner) => {
            to.put("(for ");
            if local.is_empty() {
                maybe(to, first);
            } else {
                decls(to, local.as_slice());
            }
            to.put("; ");
            maybe(to, condition);
            to.put("; ");
            maybe(to, each);
            to.put("; ");
            stmt(to, inner.get());
            to.put(")");
        }
        Stmt::Return(e, span) => {
            to.put("(return");
            to.span(*span);
            if let Some(e) = e {
                to.put(" ");
                expr(to, e);
            }
            to.put(")");
        }
        Stmt::Break(span) => {
            to.put("(break");
            to.span(*span);
            to.put(")");
        }
        Stmt::Continue(span) => {
            to.put("(continue");
            to.span(*span);
            to.put(")");
        }
    }
}

#[cycle(stmt)]
fn part(to: &mut Shape, item: &Item) {
    match item {
        Item::Local(local) => decls(to, local.as_slice()),
        Item::Stmt(s) => stmt(to, s),
    }
}

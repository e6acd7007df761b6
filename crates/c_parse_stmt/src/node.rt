//! Statements made of their parts.

ghost use Rattle.std.specs.Prelude.{◌≡◌, ◌+◌, ◌<◌, ◌^◌, true, IfOk};
ghost use Rattle.c_parse_stmt.specs.Reading.Nodes as spec;

use crate::block_read::BlockRead;
use crate::clause_read::{FirstRead, ForHead, MaybeRead};
use crate::statement_read::{ItemRead, ItemsRead, StatementRead};
use c_ast::{Item, Span, Stmt};
use c_parse_decl::ObjectsRead;
use c_parse_expr::Measured;
use sqlite_items::{Boxed, Items};
use std::alloc::{AllocError, Global};

/// A statement that no `else` can follow, with so many levels below it.
fn closed(alloc: Global, tree: Stmt, height: u32) -> Result<StatementRead, AllocError>
    ensures { IfOk result (λ made. made ≡ spec.statement_of tree height true) }
{
    Ok(StatementRead {
        tree: Boxed::new(alloc, tree)?,
        height,
        closed: true,
    })
}

/// An expression, and the token that closes it.
pub fn written(read: Measured, place: Span) -> MaybeRead
    requires { read.height + 1 < 2 ^ 32 }
    ensures { result ≡ spec.written_of (read, place) }
{
    MaybeRead {
        tree: Some(read.tree),
        height: read.height + 1,
        end: place.end,
    }
}

/// The token behind an expression that is left out.
pub fn left_out(place: Span) -> MaybeRead
    ensures { result ≡ spec.left_out_of place }
{
    MaybeRead {
        tree: None,
        height: 0,
        end: place.end,
    }
}

/// Declarations in a `for`.
pub fn first_local(read: ObjectsRead) -> FirstRead
    requires { read.height + 1 < 2 ^ 32 }
    ensures { result ≡ spec.first_local read }
{
    FirstRead {
        decls: read.decls,
        tree: None,
        height: read.height + 1,
    }
}

/// What comes first in a `for` without declarations.
pub fn first_expression(alloc: Global, read: MaybeRead) -> FirstRead
    ensures { result ≡ spec.first_expression read }
{
    FirstRead {
        decls: Items::new(alloc),
        tree: read.tree,
        height: read.height,
    }
}

/// An expression, or none, as a statement.
pub fn simple(alloc: Global, read: MaybeRead) -> Result<StatementRead, AllocError>
    ensures { IfOk result (λ made. made ≡ spec.simple_of read) }
{
    let MaybeRead {
        tree,
        height,
        end: _,
    } = read;
    match tree {
        Some(expr) => closed(alloc, Stmt::Expr(expr), height),
        None => closed(alloc, Stmt::Empty, height),
    }
}

/// `return`, from this byte on.
pub fn returned(alloc: Global, start: u32, read: MaybeRead) -> Result<StatementRead, AllocError>
    ensures { IfOk result (λ made. made ≡ spec.return_from start read) }
{
    let span = Span {
        start,
        end: read.end,
    };
    closed(alloc, Stmt::Return(read.tree, span), read.height)
}

/// `break`, from this byte on.
pub fn broken(alloc: Global, start: u32, end: Span) -> Result<StatementRead, AllocError>
    ensures { IfOk result (λ made. made ≡ spec.break_from start end) }
{
    let span = Span {
        start,
        end: end.end,
    };
    closed(alloc, Stmt::Break(span), 0)
}

/// `continue`, from this byte on.
pub fn continued(alloc: Global, start: u32, end: Span) -> Result<StatementRead, AllocError>
    ensures { IfOk result (λ made. made ≡ spec.continue_from start end) }
{
    let span = Span {
        start,
        end: end.end,
    };
    closed(alloc, Stmt::Continue(span), 0)
}

/// `while`, of its condition and its body.
pub fn while_loop(
    alloc: Global,
    parts: (Measured, StatementRead),
) -> Result<StatementRead, AllocError>
    requires condition { parts.0.height + 1 < 2 ^ 32 }
    requires body { parts.1.height + 1 < 2 ^ 32 }
    ensures { IfOk result (λ made. made ≡ spec.while_made parts) }
{
    let (condition, body) = parts;
    Ok(StatementRead {
        tree: Boxed::new(alloc, Stmt::While(condition.tree, body.tree))?,
        height: condition.height.max(body.height) + 1,
        closed: body.closed,
    })
}

/// `do`, of its body and its condition.
pub fn do_loop(
    alloc: Global,
    body: StatementRead,
    condition: Measured,
) -> Result<StatementRead, AllocError>
    requires body { body.height + 1 < 2 ^ 32 }
    requires condition { condition.height + 1 < 2 ^ 32 }
    ensures { IfOk result (λ made. made ≡ spec.do_made (body, condition)) }
{
    let height = body.height.max(condition.height) + 1;
    closed(alloc, Stmt::DoWhile(body.tree, condition.tree), height)
}

/// `for`, of what stands in its parentheses and its body.
pub fn for_loop(
    alloc: Global,
    head: ForHead,
    body: StatementRead,
) -> Result<StatementRead, AllocError>
    requires { body.height + 1 < 2 ^ 32 }
    ensures { IfOk result (λ made. made ≡ spec.for_made (head, body)) }
{
    let ForHead {
        first,
        condition,
        step,
    } = head;
    let height = step.height.max(body.height + 1);
    let height = first.height.max(condition.height.max(height));
    let tree = Stmt::For(
        first.decls,
        first.tree,
        condition.tree,
        step.tree,
        body.tree,
    );
    Ok(StatementRead {
        tree: Boxed::new(alloc, tree)?,
        height,
        closed: body.closed,
    })
}

/// `if` without `else`.
pub fn if_then(alloc: Global, parts: (Measured, StatementRead)) -> Result<StatementRead, AllocError>
    requires condition { parts.0.height + 1 < 2 ^ 32 }
    requires chosen { parts.1.height + 1 < 2 ^ 32 }
    ensures { IfOk result (λ made. made ≡ spec.if_then_of parts) }
{
    let (condition, chosen) = parts;
    Ok(StatementRead {
        tree: Boxed::new(alloc, Stmt::If(condition.tree, chosen.tree, None))?,
        height: condition.height.max(chosen.height) + 1,
        closed: false,
    })
}

/// `if` with `else`.
pub fn if_else(
    alloc: Global,
    parts: (Measured, StatementRead),
    other: StatementRead,
) -> Result<StatementRead, AllocError>
    requires condition { parts.0.height + 1 < 2 ^ 32 }
    requires chosen { parts.1.height + 1 < 2 ^ 32 }
    requires other { other.height + 1 < 2 ^ 32 }
    ensures { IfOk result (λ made. made ≡ spec.if_else_of parts other) }
{
    let (condition, chosen) = parts;
    let tree = Stmt::If(condition.tree, chosen.tree, Some(other.tree));
    Ok(StatementRead {
        tree: Boxed::new(alloc, tree)?,
        height: condition.height.max(chosen.height.max(other.height)) + 1,
        closed: other.closed,
    })
}

/// Declarations as a part of a block.
pub fn local_item(read: ObjectsRead) -> ItemRead
    ensures { result ≡ spec.local_item read }
{
    ItemRead {
        item: Item::Local(read.decls),
        height: read.height,
    }
}

/// A statement as a part of a block.
pub fn statement_item(read: StatementRead) -> ItemRead
    ensures { result ≡ spec.statement_item read }
{
    ItemRead {
        item: Item::Stmt(read.tree.into_inner()),
        height: read.height,
    }
}

/// No part of a block.
pub fn no_items(alloc: Global) -> ItemsRead
    ensures { result ≡ spec.empty_items }
{
    ItemsRead {
        items: Items::new(alloc),
        height: 0,
    }
}

/// One more part of a block.
pub fn with_item(read: ItemsRead, next: ItemRead) -> Result<ItemsRead, AllocError>
    requires { next.height + 1 < 2 ^ 32 }
    ensures { IfOk result (λ made. made ≡ spec.with_item read next) }
{
    let ItemsRead { mut items, height } = read;
    items.push(next.item)?;
    Ok(ItemsRead {
        items,
        height: height.max(next.height + 1),
    })
}

/// A block, of its parts and the brace behind them.
pub fn block(read: ItemsRead, right: Span) -> BlockRead
    ensures { result ≡ spec.block_of (read, right) }
{
    BlockRead {
        tree: Stmt::Block(read.items),
        height: read.height,
        end: right.end,
    }
}

/// A block as a statement.
pub fn compound(alloc: Global, read: BlockRead) -> Result<StatementRead, AllocError>
    ensures { IfOk result (λ made. made ≡ spec.compound_of read) }
{
    closed(alloc, read.tree, read.height)
}

//! The code of a statement.

ghost use Rattle.std.specs.Prelude.{◌≡◌, ◌≤◌, map, OnOk};
ghost use Rattle.frame_layout.specs.StatementNeeds.{item_need, maybe_need, most, stmt_need};
ghost use Rattle.block_meaning.specs.Statements.{declared};
ghost use Rattle.gen_base.specs.Code.{Appends};
ghost use Rattle.gen_stmt.specs.Statements as spec;

use crate::around::{Around, inside};
use crate::branches::{branch, branches};
use crate::declarations::{RESULT, push_declarations};
use crate::declared::{of_items, range_of};
use crate::for_loop::for_loop;
use crate::jumps::{push_jump_out, push_return};
use crate::loops::{do_loop, while_loop};
use crate::scopes::{push_enter, push_leave};
use c_type_base::{TItem, TStmt, Typed};
use frame_layout::Frame;
use gen_expr::expression;
use std::alloc::{AllocError, Global};
use sym_code::SymCode;

/// Appends a statement of a function with this frame.
#[cycle(statement)]
pub fn statement(
    alloc: Global,
    unit: &Typed,
    frame: &Frame,
    around: Around,
    stmt: &TStmt,
    code: &mut SymCode,
) -> Result<(), AllocError>
    requires { stmt_need stmt.now ≤ 32765 }
    ensures { OnOk result (Appends code.old (spec.statement_code unit.now.structs frame.now stmt.now around) code.new) }
{
    match stmt {
        TStmt::Block(items) => block(alloc, unit, frame, around, items.as_slice(), code),
        TStmt::Expr(expr) => expression(unit, frame, expr, RESULT, code),
        TStmt::Empty => Ok(()),
        TStmt::If(condition, then, other) => {
            expression(unit, frame, condition, RESULT, code)?;
            match other {
                None => branch(alloc, unit, frame, around, then.get(), code),
                Some(other) => {
                    branches(alloc, unit, frame, around, then.get(), other.get(), code)
                }
            }
        }
        TStmt::While(condition, body) => while_loop(
            alloc,
            unit,
            frame,
            condition,
            body.get(),
            code,
        ),
        TStmt::DoWhile(body, condition) => do_loop(alloc, unit, frame, body.get(), condition, code),
        TStmt::For(decls, first, condition, next, body) => for_loop(
            alloc,
            unit,
            frame,
            around,
            decls.as_slice(),
            first,
            condition,
            next,
            body.get(),
            code,
        ),
        TStmt::Return(value, _) => push_return(unit, frame, value, code),
        TStmt::Break(_) => push_jump_out(frame, around.opened, around.broke, code),
        TStmt::Continue(_) => push_jump_out(frame, around.opened, around.continued, code),
    }
}

// Appends a block: where it declares a local, it is a scope.
#[cycle(statement)]
fn block(
    alloc: Global,
    unit: &Typed,
    frame: &Frame,
    around: Around,
    items: &[TItem],
    code: &mut SymCode,
) -> Result<(), AllocError>
    requires { most (map item_need items.now) ≤ 32765 }
    ensures { OnOk result (Appends code.old
        (spec.scope frame.now (declared items.now) (spec.body_code unit.now.structs frame.now items.now) around) code.new) }
{
    let locals = of_items(alloc, items)?;
    match range_of(locals.as_slice()) {
        None => body(alloc, unit, frame, around, items, code),
        Some(range) => {
            push_enter(alloc, frame, locals.as_slice(), code)?;
            body(alloc, unit, frame, inside(around, range), items, code)?;
            push_leave(frame, range, code)
        }
    }
}

/// Appends the parts of a block, in its scope.
#[cycle(statement)]
pub fn body(
    alloc: Global,
    unit: &Typed,
    frame: &Frame,
    around: Around,
    items: &[TItem],
    code: &mut SymCode,
) -> Result<(), AllocError>
    requires { most (map item_need items.now) ≤ 32765 }
    ensures { OnOk result (Appends code.old (spec.body_code unit.now.structs frame.now items.now around) code.new) }
{
    for part in items {
        item(alloc, unit, frame, around, part, code)?;
    }
    Ok(())
}

// Appends a part of a block.
#[cycle(statement)]
fn item(
    alloc: Global,
    unit: &Typed,
    frame: &Frame,
    around: Around,
    part: &TItem,
    code: &mut SymCode,
) -> Result<(), AllocError>
    requires { item_need part.now ≤ 32765 }
    ensures { OnOk result (Appends code.old ((spec.coded_item unit.now.structs frame.now part.now).code around) code.new) }
{
    match part {
        TItem::Local(decls) => push_declarations(unit, frame, decls.as_slice(), code),
        TItem::Stmt(stmt) => statement(alloc, unit, frame, around, stmt, code),
    }
}

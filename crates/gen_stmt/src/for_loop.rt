//! A `for`, with what comes first in it.

ghost use Rattle.std.specs.Prelude.{◌≡◌, ◌≤◌, max, map, OnOk, Option};
ghost use Rattle.frame_layout.specs.StatementNeeds.{decl_need, maybe_need, most, stmt_need};
ghost use Rattle.gen_base.specs.Code.{Appends};
ghost use Rattle.gen_stmt.specs.Loops.{for_code};
ghost use Rattle.gen_stmt.specs.Statements as spec;

use crate::around::Around;
use crate::declarations::{push_declarations, push_maybe};
use crate::declared::{of_declarations, range_of};
use crate::loops::turns;
use crate::scopes::{push_enter, push_leave};
use c_type_base::{TDecl, TExpr, TStmt, Typed};
use frame_layout::Frame;
use std::alloc::{AllocError, Global};
use sym_code::SymCode;

// Appends: what comes first, and the loop.
#[cycle(statement)]
fn parts(
    alloc: Global,
    unit: &Typed,
    frame: &Frame,
    decls: &[TDecl],
    first: &Option<TExpr>,
    condition: &Option<TExpr>,
    next: &Option<TExpr>,
    body: &TStmt,
    code: &mut SymCode,
) -> Result<(), AllocError>
    requires { max (max (most (map decl_need decls.now)) (maybe_need first.now))
        (max (max (maybe_need condition.now) (maybe_need next.now)) (stmt_need body.now)) ≤ 32765 }
    ensures { OnOk result (Appends code.old (spec.for_parts unit.now.structs frame.now decls.now first.now
        (for_code (spec.condition unit.now.structs frame.now condition.now) (spec.maybe_value unit.now.structs frame.now next.now)
        (spec.statement_code unit.now.structs frame.now body.now))) code.new) }
{
    push_declarations(unit, frame, decls, code)?;
    push_maybe(unit, frame, first, code)?;
    turns(alloc, unit, frame, condition, next, body, code)
}

// Appends a `for`: where it declares a local, it is a scope.
#[cycle(statement)]
pub fn for_loop(
    alloc: Global,
    unit: &Typed,
    frame: &Frame,
    around: Around,
    decls: &[TDecl],
    first: &Option<TExpr>,
    condition: &Option<TExpr>,
    next: &Option<TExpr>,
    body: &TStmt,
    code: &mut SymCode,
) -> Result<(), AllocError>
    requires { max (max (most (map decl_need decls.now)) (maybe_need first.now))
        (max (max (maybe_need condition.now) (maybe_need next.now)) (stmt_need body.now)) ≤ 32765 }
    ensures { OnOk result (Appends code.old (spec.for_scope unit.now.structs frame.now decls.now first.now
        (for_code (spec.condition unit.now.structs frame.now condition.now) (spec.maybe_value unit.now.structs frame.now next.now)
        (spec.statement_code unit.now.structs frame.now body.now)) around) code.new) }
{
    let locals = of_declarations(alloc, decls)?;
    match range_of(locals.as_slice()) {
        None => parts(
            alloc, unit, frame, decls, first, condition, next, body, code,
        ),
        Some(range) => {
            push_enter(alloc, frame, locals.as_slice(), code)?;
            parts(
                alloc, unit, frame, decls, first, condition, next, body, code,
            )?;
            push_leave(frame, range, code)
        }
    }
}

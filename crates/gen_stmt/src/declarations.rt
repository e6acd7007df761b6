//! Values of expressions in statements, and declarations of locals.

ghost use Rattle.std.specs.Prelude.{◌≡◌, ◌≤◌, map, slice_get, OnOk, Option};
ghost use Rattle.frame_layout.specs.Needs.{need};
ghost use Rattle.frame_layout.specs.StatementNeeds.{decl_need, maybe_need, most};
ghost use Rattle.gen_base.specs.Accesses.{reached as reached_from};
ghost use Rattle.gen_base.specs.Code.{Appends};
ghost use Rattle.gen_stmt.specs.Statements as spec;

use a64_code::{Instr, Reg};
use c_type_base::{TDecl, TExpr, TInit, Ty, Typed};
use frame_layout::Frame;
use gen_base::{SCRATCH, push, push_instr, push_store, push_store_local, reached};
use gen_expr::expression;
use sqlite_items::at;
use std::alloc::AllocError;
use sym_code::{SymCode, SymItem};

/// Where the values of statements come.
pub const RESULT: Reg = Reg(9);

// Appends: the value of an expression, if there is one.
pub fn push_maybe(
    unit: &Typed,
    frame: &Frame,
    expr: &Option<TExpr>,
    code: &mut SymCode,
) -> Result<(), AllocError>
    requires { maybe_need expr.now ≤ 32765 }
    ensures { OnOk result (Appends code.old (spec.maybe_value unit.now.structs frame.now expr.now) code.new) }
{
    match expr {
        None => Ok(()),
        Some(expr) => expression(unit, frame, expr, RESULT, code),
    }
}

/// Appends: what a register has is stored in a local of a type.
pub fn store_local(
    frame: &Frame,
    local: u32,
    ty: &Ty,
    reg: Reg,
    code: &mut SymCode,
) -> Result<(), AllocError>
    ensures { OnOk result (Appends code.old
        (spec.store_local local ty.now (reached_from ty.now (slice_get frame.now.slots local)) reg) code.new) }
{
    match reached(ty, at(frame.slots.as_slice(), local as usize)) {
        Some(start) => push_store_local(code, ty, start, reg),
        None => {
            push(code, SymItem::SlotAddress(local, SCRATCH))?;
            push_store(code, ty, SCRATCH, reg)
        }
    }
}

// Appends: a local is initialised with the value of an expression.
fn push_one(
    unit: &Typed,
    frame: &Frame,
    local: u32,
    expr: &TExpr,
    code: &mut SymCode,
) -> Result<(), AllocError>
    requires { need expr.now ≤ 32765 }
    ensures { OnOk result (Appends code.old (spec.one_init unit.now.structs frame.now local expr.now) code.new) }
{
    push_instr(code, Instr::Nop)?;
    expression(unit, frame, expr, RESULT, code)?;
    store_local(frame, local, &expr.ty, RESULT, code)
}

// Appends a declaration.
fn push_declaration(
    unit: &Typed,
    frame: &Frame,
    decl: &TDecl,
    code: &mut SymCode,
) -> Result<(), AllocError>
    requires { decl_need decl.now ≤ 32765 }
    ensures { OnOk result (Appends code.old (spec.declaration unit.now.structs frame.now decl.now) code.new) }
{
    match &decl.init {
        None => Ok(()),
        Some(init) => match init {
            TInit::One(expr) => push_one(unit, frame, decl.local, expr, code),
            TInit::List(_, _) => Ok(()),
        },
    }
}

// Appends some declarations.
pub fn push_declarations(
    unit: &Typed,
    frame: &Frame,
    decls: &[TDecl],
    code: &mut SymCode,
) -> Result<(), AllocError>
    requires { most (map decl_need decls.now) ≤ 32765 }
    ensures { OnOk result (Appends code.old (spec.declarations unit.now.structs frame.now decls.now) code.new) }
{
    for decl in decls {
        push_declaration(unit, frame, decl, code)?;
    }
    Ok(())
}

//! Jumps out of loops and functions, and back to the bodies of loops.

ghost use Rattle.std.specs.Prelude.{◌≡◌, ◌≤◌, OnOk, Option, Some};
ghost use Rattle.frame_layout.specs.Needs.{need};
ghost use Rattle.frame_layout.specs.StatementNeeds.{maybe_need};
ghost use Rattle.gen_base.specs.Code.{Appends};
ghost use Rattle.gen_stmt.specs.Loops as spec;
ghost use Rattle.gen_stmt.specs.Statements.{condition as condition_code, return_code, value};

use crate::around::Range;
use crate::declarations::RESULT;
use crate::scopes::push_leave_open;
use c_type_base::{TExpr, Typed};
use frame_layout::Frame;
use gen_base::{RETURNED, push, push_move, push_moves};
use gen_expr::expression;
use std::alloc::AllocError;
use sym_code::{SymCode, SymItem};

// Appends: the open scopes are left, and then it goes on at a label.
pub fn push_jump_out(
    frame: &Frame,
    opened: Option<Range>,
    label: u32,
    code: &mut SymCode,
) -> Result<(), AllocError>
    ensures { OnOk result (Appends code.old (spec.jump_out frame.now opened label) code.new) }
{
    push_leave_open(frame, opened, code)?;
    push(code, SymItem::Jump(label))
}

// Appends: back to the body where the condition holds.
pub fn push_back_if(
    unit: &Typed,
    frame: &Frame,
    label: u32,
    condition: &TExpr,
    code: &mut SymCode,
) -> Result<(), AllocError>
    requires { need condition.now ≤ 32765 }
    ensures { OnOk result (Appends code.old
        (spec.back_to label (Some (value unit.now.structs frame.now condition.now))) code.new) }
{
    expression(unit, frame, condition, RESULT, code)?;
    push(code, SymItem::JumpIfNotZero(RESULT, label))
}

// Appends: back to the body where the condition holds, and always where there is none.
pub fn push_back(
    unit: &Typed,
    frame: &Frame,
    label: u32,
    condition: &Option<TExpr>,
    code: &mut SymCode,
) -> Result<(), AllocError>
    requires { maybe_need condition.now ≤ 32765 }
    ensures { OnOk result (Appends code.old
        (spec.back_to label (condition_code unit.now.structs frame.now condition.now)) code.new) }
{
    match condition {
        None => push(code, SymItem::Jump(label)),
        Some(expr) => push_back_if(unit, frame, label, expr, code),
    }
}

// Appends a `return`.
pub fn push_return(
    unit: &Typed,
    frame: &Frame,
    value: &Option<TExpr>,
    code: &mut SymCode,
) -> Result<(), AllocError>
    requires { maybe_need value.now ≤ 32765 }
    ensures { OnOk result (Appends code.old (return_code unit.now.structs frame.now value.now) code.new) }
{
    match value {
        None => {
            push_moves(code, RETURNED, 0)?;
            push(code, SymItem::Leave)
        }
        Some(expr) => {
            expression(unit, frame, expr, RESULT, code)?;
            push_move(code, RESULT, RETURNED)?;
            push(code, SymItem::Leave)
        }
    }
}

//! Loops: one jump to the test, and then one for each turn.

ghost use Rattle.std.specs.Prelude.{◌≡◌, ◌≤◌, ◌+◌, ◌<◌, ◌^◌, max, [], ◌∷◌, OnOk, Option, Some};
ghost use Rattle.frame_layout.specs.Needs.{need};
ghost use Rattle.frame_layout.specs.StatementNeeds.{maybe_need, stmt_need};
ghost use Rattle.gen_base.specs.Code.{Appends, in_turn, only};
ghost use Rattle.gen_stmt.specs.Loops.{back_to, do_code, in_loop as loop_at, while_code, for_code};
ghost use Rattle.gen_stmt.specs.Statements as spec;

use crate::around::in_loop;
use crate::declarations::push_maybe;
use crate::jumps::{push_back, push_back_if};
use crate::statements::statement;
use a64_code::Instr;
use c_type_base::{TExpr, TStmt, Typed};
use frame_layout::Frame;
use gen_base::{next_label, push, push_instr};
use std::alloc::{AllocError, Global};
use sym_code::{SymCode, SymItem};

// Appends: the body of a loop whose labels begin with this one, from its own label on, and then where its next turn begins.
#[cycle(statement)]
fn turn(
    alloc: Global,
    unit: &Typed,
    frame: &Frame,
    label: u32,
    body: &TStmt,
    code: &mut SymCode,
) -> Result<(), AllocError>
    requires need { stmt_need body.now ≤ 32765 }
    requires room { label + 3 < 2 ^ 32 }
    ensures { OnOk result (Appends code.old (in_turn (only (SymItem.Label (label + 1))
        ∷ spec.statement_code unit.now.structs frame.now body.now (loop_at (label + 2) label)
        ∷ only (SymItem.Label label) ∷ [])) code.new) }
{
    push(code, SymItem::Label(label + 1))?;
    statement(alloc, unit, frame, in_loop(label), body, code)?;
    push(code, SymItem::Label(label))
}

// Appends a `while`.
#[cycle(statement)]
pub fn while_loop(
    alloc: Global,
    unit: &Typed,
    frame: &Frame,
    condition: &TExpr,
    body: &TStmt,
    code: &mut SymCode,
) -> Result<(), AllocError>
    requires { max (need condition.now) (stmt_need body.now) ≤ 32765 }
    ensures { OnOk result (Appends code.old (while_code (spec.value unit.now.structs frame.now condition.now)
        (spec.statement_code unit.now.structs frame.now body.now)) code.new) }
{
    let label = next_label(code)?;
    push(code, SymItem::Jump(label))?;
    turn(alloc, unit, frame, label, body, code)?;
    push_back_if(unit, frame, label + 1, condition, code)?;
    push(code, SymItem::Label(label + 2))
}

// Appends a `do`.
#[cycle(statement)]
pub fn do_loop(
    alloc: Global,
    unit: &Typed,
    frame: &Frame,
    body: &TStmt,
    condition: &TExpr,
    code: &mut SymCode,
) -> Result<(), AllocError>
    requires { max (stmt_need body.now) (need condition.now) ≤ 32765 }
    ensures { OnOk result (Appends code.old (do_code (spec.statement_code unit.now.structs frame.now body.now)
        (spec.value unit.now.structs frame.now condition.now)) code.new) }
{
    let label = next_label(code)?;
    push_instr(code, Instr::Nop)?;
    turn(alloc, unit, frame, label, body, code)?;
    push_back_if(unit, frame, label + 1, condition, code)?;
    push(code, SymItem::Label(label + 2))
}

// Appends: what ends a turn of a `for`, its test, and the label behind it.
fn push_test(
    unit: &Typed,
    frame: &Frame,
    label: u32,
    condition: &Option<TExpr>,
    next: &Option<TExpr>,
    code: &mut SymCode,
) -> Result<(), AllocError>
    requires need { max (maybe_need condition.now) (maybe_need next.now) ≤ 32765 }
    requires room { label + 3 < 2 ^ 32 }
    ensures { OnOk result (Appends code.old (in_turn (spec.maybe_value unit.now.structs frame.now next.now
        ∷ only (SymItem.Label (label + 3)) ∷ back_to (label + 1) (spec.condition unit.now.structs frame.now condition.now)
        ∷ only (SymItem.Label (label + 2)) ∷ [])) code.new) }
{
    push_maybe(unit, frame, next, code)?;
    push(code, SymItem::Label(label + 3))?;
    push_back(unit, frame, label + 1, condition, code)?;
    push(code, SymItem::Label(label + 2))
}

// Appends the loop of a `for`.
#[cycle(statement)]
pub fn turns(
    alloc: Global,
    unit: &Typed,
    frame: &Frame,
    condition: &Option<TExpr>,
    next: &Option<TExpr>,
    body: &TStmt,
    code: &mut SymCode,
) -> Result<(), AllocError>
    requires { max (max (maybe_need condition.now) (maybe_need next.now)) (stmt_need body.now) ≤ 32765 }
    ensures { OnOk result (Appends code.old (for_code (spec.condition unit.now.structs frame.now condition.now)
        (spec.maybe_value unit.now.structs frame.now next.now) (spec.statement_code unit.now.structs frame.now body.now)) code.new) }
{
    let label = next_label(code)?;
    push(code, SymItem::Jump(label + 3))?;
    turn(alloc, unit, frame, label, body, code)?;
    push_test(unit, frame, label, condition, next, code)
}

//! The statements of an `if`.

ghost use Rattle.std.specs.Prelude.{◌≡◌, ◌≤◌, ◌+◌, ◌<◌, ◌^◌, suc, max, [], ◌∷◌, OnOk};
ghost use Rattle.frame_layout.specs.StatementNeeds.{stmt_need};
ghost use Rattle.gen_base.specs.Code.{Appends, in_turn, only};
ghost use Rattle.gen_stmt.specs.Statements as spec;

use crate::around::Around;
use crate::declarations::RESULT;
use crate::statements::statement;
use c_type_base::{TStmt, Typed};
use frame_layout::Frame;
use gen_base::{next_label, push};
use std::alloc::{AllocError, Global};
use sym_code::{SymCode, SymItem};

// Appends: a statement where the value is not 0.
#[cycle(statement)]
pub fn branch(
    alloc: Global,
    unit: &Typed,
    frame: &Frame,
    around: Around,
    then: &TStmt,
    code: &mut SymCode,
) -> Result<(), AllocError>
    requires { stmt_need then.now ≤ 32765 }
    ensures { OnOk result (Appends code.old
        (spec.branch (spec.statement_code unit.now.structs frame.now then.now) around) code.new) }
{
    let label = next_label(code)?;
    push(code, SymItem::JumpIfZero(RESULT, label))?;
    statement(alloc, unit, frame, around, then, code)?;
    push(code, SymItem::Label(label))
}

// Appends: the first of two statements ends, and goes behind the second, which begins.
fn push_else(label: u32, code: &mut SymCode) -> Result<(), AllocError>
    requires { label + 1 < 2 ^ 32 }
    ensures { OnOk result (Appends code.old (in_turn (only (SymItem.Jump (suc label)) ∷ only (SymItem.Label label) ∷ [])) code.new) }
{
    push(code, SymItem::Jump(label + 1))?;
    push(code, SymItem::Label(label))
}

// Appends: a statement where the value is not 0, and another where it is 0.
#[cycle(statement)]
pub fn branches(
    alloc: Global,
    unit: &Typed,
    frame: &Frame,
    around: Around,
    then: &TStmt,
    other: &TStmt,
    code: &mut SymCode,
) -> Result<(), AllocError>
    requires { max (stmt_need then.now) (stmt_need other.now) ≤ 32765 }
    ensures { OnOk result (Appends code.old (spec.branches (spec.statement_code unit.now.structs frame.now then.now)
        (spec.statement_code unit.now.structs frame.now other.now) around) code.new) }
{
    let label = next_label(code)?;
    push(code, SymItem::JumpIfZero(RESULT, label))?;
    statement(alloc, unit, frame, around, then, code)?;
    push_else(label, code)?;
    statement(alloc, unit, frame, around, other, code)?;
    push(code, SymItem::Label(label + 1))
}

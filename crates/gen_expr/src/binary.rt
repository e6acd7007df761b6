//! Operators on two operands, of which the first waits for the second, or is all that is evaluated.

ghost use Rattle.std.specs.Prelude.{◌≡◌, ◌≤◌, ◌+◌, ◌*◌, [], ◌∷◌, length, suc, max, OnOk, IfOk};
ghost use Rattle.frame_layout.specs.Needs.{both, need, waiting};
ghost use Rattle.gen_base.specs.Code.{Appends, in_turn, only, plain};
ghost use Rattle.gen_base.specs.Integers.{is_other};
ghost use Rattle.gen_base.specs.Operators.{operated};
ghost use Rattle.gen_base.specs.Registers.{left as first};
ghost use Rattle.gen_expr.specs.Expressions.{coded};
ghost use Rattle.gen_expr.specs.Laws.WaitingLaws as spec;
ghost use Rattle.gen_expr.specs.Nodes.{and_value, binary_value, first_waits, index_place, or_value};

use crate::destination::Destination;
use crate::known::is_alone;
use crate::value::value;
use a64_code::Reg;
use c_ast::BinaryOperator;
use c_type_base::{TExpr, Ty, Typed};
use frame_layout::Frame;
use gen_base::{
    LEFT, bytes_of, next_label, push, push_element, push_fetch, push_is_other, push_keep,
    push_move, push_operated,
};
use std::alloc::AllocError;
use sym_code::{SymCode, SymItem};

// Appends: the value of a second operand, while the first, which is in the register, waits, and then the first into a register.
#[cycle(value)]
pub fn second(
    unit: &Typed,
    frame: &Frame,
    expr: &TExpr,
    into: Reg,
    to: Destination,
    code: &mut SymCode,
) -> Result<(), AllocError>
    requires { to.temp + need expr.now + 1 ≤ 32765 }
    ensures { OnOk result (Appends code.old (spec.second into (coded unit.now.structs frame.now expr.now) to.temp to.reg) code.new) }
{
    if is_alone(expr) {
        push_move(code, to.reg, into)?;
        return value(unit, frame, expr, to, code);
    }
    push_keep(code, to.temp, to.reg)?;
    let next = Destination {
        temp: to.temp + 1,
        reg: to.reg,
    };
    value(unit, frame, expr, next, code)?;
    push_fetch(code, to.temp, into)
}

// Appends an operator on two operands.
#[cycle(value)]
pub fn binary(
    unit: &Typed,
    frame: &Frame,
    operator: BinaryOperator,
    left: &TExpr,
    right: &TExpr,
    to: Destination,
    code: &mut SymCode,
) -> Result<(), AllocError>
    requires { to.temp + both operator (need left.now) (need right.now) ≤ 32765 }
    ensures { OnOk result (Appends code.old (binary_value unit.now.structs operator (coded unit.now.structs frame.now left.now)
        (coded unit.now.structs frame.now right.now) to.temp to.reg) code.new) }
{
    match operator {
        BinaryOperator::And => and(unit, frame, left, right, to, code),
        BinaryOperator::Or => or(unit, frame, left, right, to, code),
        _ => on_values(unit, frame, operator, left, right, to, code),
    }
}

// Appends an operator that takes both values.
#[cycle(value)]
#[tactic(auto, using(crate::specs::Laws::CodeLaws::coded_ty, crate::specs::Laws::WaitingLaws::first_waits_is))]
fn on_values(
    unit: &Typed,
    frame: &Frame,
    operator: BinaryOperator,
    left: &TExpr,
    right: &TExpr,
    to: Destination,
    code: &mut SymCode,
) -> Result<(), AllocError>
    requires { to.temp + waiting (need left.now) (need right.now) ≤ 32765 }
    ensures { OnOk result (Appends code.old (in_turn (
        first_waits first (coded unit.now.structs frame.now left.now).value (coded unit.now.structs frame.now right.now) to.temp to.reg
        ∷ operated unit.now.structs operator (coded unit.now.structs frame.now left.now).ty
        (coded unit.now.structs frame.now right.now).ty to.reg ∷ [])) code.new) }
{
    value(unit, frame, left, to, code)?;
    second(unit, frame, right, LEFT, to, code)?;
    push_operated(code, unit, operator, &left.ty, &right.ty, to.reg)
}

// Appends: the place of the element of a number behind a pointer, in either order, of a type.
#[cycle(value)]
pub fn index(
    unit: &Typed,
    frame: &Frame,
    left: &TExpr,
    right: &TExpr,
    ty: &Ty,
    to: Destination,
    code: &mut SymCode,
) -> Result<(), AllocError>
    requires { to.temp + waiting (need left.now) (need right.now) ≤ 32765 }
    ensures { OnOk result (Appends code.old (index_place unit.now.structs (coded unit.now.structs frame.now left.now)
        (coded unit.now.structs frame.now right.now) ty.now to.temp to.reg) code.new) }
{
    value(unit, frame, left, to, code)?;
    second(unit, frame, right, LEFT, to, code)?;
    push_element(code, bytes_of(unit, ty), &left.ty, to.reg)
}

// Appends: whether the second operand is not 0, and the label behind it.
#[cycle(value)]
fn truth(
    unit: &Typed,
    frame: &Frame,
    expr: &TExpr,
    label: u32,
    to: Destination,
    code: &mut SymCode,
) -> Result<(), AllocError>
    requires { to.temp + need expr.now ≤ 32765 }
    ensures { OnOk result (Appends code.old (in_turn ((coded unit.now.structs frame.now expr.now).value to.temp to.reg
        ∷ plain (is_other to.reg) ∷ only (SymItem.Label label) ∷ [])) code.new) }
{
    value(unit, frame, expr, to, code)?;
    push_is_other(code, to.reg)?;
    push(code, SymItem::Label(label))
}

// Appends `a && b`, which is 0 where `a` is.
#[cycle(value)]
fn and(
    unit: &Typed,
    frame: &Frame,
    left: &TExpr,
    right: &TExpr,
    to: Destination,
    code: &mut SymCode,
) -> Result<(), AllocError>
    requires { to.temp + max (need left.now) (need right.now) ≤ 32765 }
    ensures { OnOk result (Appends code.old (and_value (coded unit.now.structs frame.now left.now)
        (coded unit.now.structs frame.now right.now) to.temp to.reg) code.new) }
{
    value(unit, frame, left, to, code)?;
    let label = next_label(code)?;
    push(code, SymItem::JumpIfZero(to.reg, label))?;
    truth(unit, frame, right, label, to, code)
}

// Appends `a || b`, which is 1 where `a` is not 0.
#[cycle(value)]
fn or(
    unit: &Typed,
    frame: &Frame,
    left: &TExpr,
    right: &TExpr,
    to: Destination,
    code: &mut SymCode,
) -> Result<(), AllocError>
    requires { to.temp + max (need left.now) (need right.now) ≤ 32765 }
    ensures { OnOk result (Appends code.old (or_value (coded unit.now.structs frame.now left.now)
        (coded unit.now.structs frame.now right.now) to.temp to.reg) code.new) }
{
    value(unit, frame, left, to, code)?;
    push_is_other(code, to.reg)?;
    let label = next_label(code)?;
    push(code, SymItem::JumpIfNotZero(to.reg, label))?;
    truth(unit, frame, right, label, to, code)
}

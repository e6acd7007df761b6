//! The value of an expression.

ghost use Rattle.std.specs.Prelude.{◌≤◌, ◌+◌, OnOk};
ghost use Rattle.frame_layout.specs.Needs.{need, node_need};
ghost use Rattle.gen_base.specs.Code.{Appends};
ghost use Rattle.gen_expr.specs.Coded as spec;
ghost use Rattle.gen_expr.specs.Expressions.{coded, coded_node, expression_code};
ghost use Rattle.gen_expr.specs.Laws.WaitingLaws.{place_by};
ghost use Rattle.gen_expr.specs.Nodes.{unary_value};

use crate::assign::{assign, step};
use crate::binary::{binary, index};
use crate::call::call;
use crate::choice::cond;
use crate::destination::Destination;
use crate::known::slot_of;
use a64_code::{Instr, Reg};
use c_ast::UnaryOperator;
use c_type_base::{TExpr, TNode, Ty, Typed, is_struct};
use frame_layout::Frame;
use gen_base::{
    bytes_of, int_in, push, push_convert, push_instr, push_load, push_load_local, push_moves,
    push_on_integer, push_paying_convert,
};
use std::alloc::AllocError;
use sym_code::{SymCode, SymItem};

/// Appends code that evaluates an expression of a function with this frame into a register.
pub fn expression(
    unit: &Typed,
    frame: &Frame,
    expr: &TExpr,
    reg: Reg,
    code: &mut SymCode,
) -> Result<(), AllocError>
    requires { need expr.now ≤ 32765 }
    ensures { OnOk result (Appends code.old (expression_code unit.now.structs frame.now expr.now 0 reg) code.new) }
{
    value(unit, frame, expr, Destination { temp: 0, reg }, code)
}

// Appends code that evaluates an expression.
#[cycle(value)]
pub fn value(
    unit: &Typed,
    frame: &Frame,
    expr: &TExpr,
    to: Destination,
    code: &mut SymCode,
) -> Result<(), AllocError>
    requires { to.temp + need expr.now ≤ 32765 }
    ensures { OnOk result (Appends code.old ((coded unit.now.structs frame.now expr.now).value to.temp to.reg) code.new) }
{
    value_of(unit, frame, expr.node.get(), &expr.ty, to, code)
}

#[cycle(value)]
#[tactic(auto, using(crate::specs::Laws::CodeLaws::coded_ty))]
fn value_of(
    unit: &Typed,
    frame: &Frame,
    node: &TNode,
    ty: &Ty,
    to: Destination,
    code: &mut SymCode,
) -> Result<(), AllocError>
    requires { to.temp + node_need node.now ≤ 32765 }
    ensures { OnOk result (Appends code.old ((coded_node unit.now.structs frame.now node.now ty.now).value to.temp to.reg) code.new) }
{
    match node {
        TNode::Constant(number, _) => push_moves(code, to.reg, *number),
        TNode::Paren(inner) => value(unit, frame, inner, to, code),
        TNode::Unary(UnaryOperator::Dereference, _) => Ok(()),
        TNode::Unary(operator, operand) => unary(unit, frame, *operator, operand, to, code),
        TNode::Binary(operator, left, right) => {
            binary(unit, frame, *operator, left, right, to, code)
        }
        TNode::Assign(operator, left, right) => {
            assign(unit, frame, *operator, left, right, to, code)
        }
        TNode::Cond(condition, then, other) => {
            cond(unit, frame, condition, then, other, to, code)
        }
        TNode::Cast(ty, operand) => {
            value(unit, frame, operand, to, code)?;
            push_paying_convert(code, &operand.ty, ty, to.reg)
        }
        TNode::SizeofExpr(operand) => push_moves(code, to.reg, bytes_of(unit, &operand.ty)),
        TNode::SizeofName(ty) => push_moves(code, to.reg, bytes_of(unit, ty)),
        TNode::Call(callee, arguments) => {
            call(unit, frame, *callee, arguments.as_slice(), to, code)
        }
        TNode::Step(by, operand) => step(unit, frame, *by, operand, to, code),
        TNode::Read(object) => read(unit, frame, object, to, code),
        TNode::Decay(array) => place(unit, frame, array, true, to, code),
        TNode::Convert(operand) => {
            value(unit, frame, operand, to, code)?;
            push_convert(code, &operand.ty, ty, to.reg)
        }
        _ => Ok(()),
    }
}

// Appends an operator on one operand, which is no dereference.
#[cycle(value)]
#[tactic(auto, using(crate::specs::Laws::CodeLaws::coded_ty))]
fn unary(
    unit: &Typed,
    frame: &Frame,
    operator: UnaryOperator,
    operand: &TExpr,
    to: Destination,
    code: &mut SymCode,
) -> Result<(), AllocError>
    requires { to.temp + need operand.now ≤ 32765 }
    ensures { OnOk result (Appends code.old (unary_value operator (coded unit.now.structs frame.now operand.now) to.temp to.reg) code.new) }
{
    match operator {
        UnaryOperator::AddressOf => {
            place(unit, frame, operand, true, to, code)?;
            push_instr(code, Instr::Nop)
        }
        _ => {
            value(unit, frame, operand, to, code)?;
            push_on_integer(code, operator, int_in(&operand.ty), to.reg)
        }
    }
}

// Appends: the place of what an expression designates, or, where that does not pay, without the unit of work of a dereference.
#[cycle(value)]
pub fn place(
    unit: &Typed,
    frame: &Frame,
    expr: &TExpr,
    pays: bool,
    to: Destination,
    code: &mut SymCode,
) -> Result<(), AllocError>
    requires { to.temp + need expr.now ≤ 32765 }
    ensures { OnOk result (Appends code.old (place_by pays (coded unit.now.structs frame.now expr.now) to.temp to.reg) code.new) }
{
    place_of(unit, frame, expr.node.get(), &expr.ty, pays, to, code)
}

#[cycle(value)]
fn place_of(
    unit: &Typed,
    frame: &Frame,
    node: &TNode,
    ty: &Ty,
    pays: bool,
    to: Destination,
    code: &mut SymCode,
) -> Result<(), AllocError>
    requires { to.temp + node_need node.now ≤ 32765 }
    ensures { OnOk result (Appends code.old
        (place_by pays (coded_node unit.now.structs frame.now node.now ty.now) to.temp to.reg) code.new) }
{
    match node {
        TNode::Text(number) => push(code, SymItem::TextAddress(*number, to.reg)),
        TNode::Local(number) => push(code, SymItem::SlotAddress(*number, to.reg)),
        TNode::Global(number) => push(code, SymItem::GlobalAddress(*number, to.reg)),
        TNode::Extern(number) => push(code, SymItem::ExternAddress(*number, to.reg)),
        TNode::Paren(inner) => place(unit, frame, inner, pays, to, code),
        TNode::Unary(UnaryOperator::Dereference, pointer) => {
            value(unit, frame, pointer, to, code)?;
            if pays {
                push_instr(code, Instr::Nop)?;
            }
            Ok(())
        }
        TNode::Index(array, number) => index(unit, frame, array, number, ty, to, code),
        _ => Ok(()),
    }
}

// Appends: the value of what an expression designates.
#[cycle(value)]
#[tactic(auto, using(crate::specs::Laws::CodeLaws::coded_ty))]
fn read(
    unit: &Typed,
    frame: &Frame,
    object: &TExpr,
    to: Destination,
    code: &mut SymCode,
) -> Result<(), AllocError>
    requires { to.temp + need object.now ≤ 32765 }
    ensures { OnOk result (Appends code.old (spec.read (coded unit.now.structs frame.now object.now) to.temp to.reg) code.new) }
{
    if is_struct(&object.ty) {
        return place(unit, frame, object, true, to, code);
    }
    match slot_of(frame, object) {
        Some(start) => push_load_local(code, &object.ty, start, to.reg),
        None => {
            place(unit, frame, object, false, to, code)?;
            push_load(code, &object.ty, to.reg, to.reg)
        }
    }
}

//! Assignments: a local in reach of SP is stored there, and any other object through its place, which waits.

ghost use Rattle.std.specs.Prelude.{◌≡◌, ◌≤◌, ◌+◌, OnOk, Option};
ghost use Rattle.frame_layout.specs.Needs.{need, waiting};
ghost use Rattle.gen_base.specs.Code.{Appends};
ghost use Rattle.gen_expr.specs.Expressions.{coded};
ghost use Rattle.gen_expr.specs.Nodes.{assign_node, assign_value, compound_value, step_value};

use crate::assigned::{
    push_combined_behind, push_combined_local, push_step_behind, push_step_local,
};
use crate::binary::second;
use crate::destination::Destination;
use crate::known::slot_of;
use crate::value::{place, value};
use a64_code::Instr;
use c_ast::{AssignOperator, Step};
use c_type_base::{TExpr, Typed};
use frame_layout::Frame;
use gen_base::{SCRATCH, push_instr, push_keep, push_store, push_store_local};
use std::alloc::AllocError;
use sym_code::SymCode;

// Appends an assignment.
#[cycle(value)]
pub fn assign(
    unit: &Typed,
    frame: &Frame,
    operator: Option<AssignOperator>,
    left: &TExpr,
    right: &TExpr,
    to: Destination,
    code: &mut SymCode,
) -> Result<(), AllocError>
    requires { to.temp + waiting (need left.now) (need right.now) ≤ 32765 }
    ensures { OnOk result (Appends code.old (assign_node unit.now.structs operator (coded unit.now.structs frame.now left.now)
        (coded unit.now.structs frame.now right.now) to.temp to.reg) code.new) }
{
    match operator {
        None => simple(unit, frame, left, right, to, code),
        Some(operator) => compound(unit, frame, operator, left, right, to, code),
    }
}

// Appends `=`.
#[cycle(value)]
fn simple(
    unit: &Typed,
    frame: &Frame,
    left: &TExpr,
    right: &TExpr,
    to: Destination,
    code: &mut SymCode,
) -> Result<(), AllocError>
    requires { to.temp + waiting (need left.now) (need right.now) ≤ 32765 }
    ensures { let place = coded unit.now.structs frame.now left.now in OnOk result (Appends code.old
        (assign_value place.slot place (coded unit.now.structs frame.now right.now) to.temp to.reg) code.new) }
{
    match slot_of(frame, left) {
        Some(start) => {
            push_instr(code, Instr::Nop)?;
            value(unit, frame, right, to, code)?;
            push_store_local(code, &left.ty, start, to.reg)
        }
        None => {
            place(unit, frame, left, false, to, code)?;
            second(unit, frame, right, SCRATCH, to, code)?;
            push_store(code, &left.ty, SCRATCH, to.reg)
        }
    }
}

// Appends an operator with `=`.
#[cycle(value)]
fn compound(
    unit: &Typed,
    frame: &Frame,
    operator: AssignOperator,
    left: &TExpr,
    right: &TExpr,
    to: Destination,
    code: &mut SymCode,
) -> Result<(), AllocError>
    requires { to.temp + waiting (need left.now) (need right.now) ≤ 32765 }
    ensures { let place = coded unit.now.structs frame.now left.now in OnOk result (Appends code.old
        (compound_value unit.now.structs operator place.slot place (coded unit.now.structs frame.now right.now) to.temp to.reg) code.new) }
{
    match slot_of(frame, left) {
        Some(start) => {
            push_instr(code, Instr::Nop)?;
            value(unit, frame, right, to, code)?;
            push_combined_local(unit, operator, &left.ty, &right.ty, start, to.reg, code)
        }
        None => {
            place(unit, frame, left, false, to, code)?;
            push_keep(code, to.temp, to.reg)?;
            let next = Destination {
                temp: to.temp + 1,
                reg: to.reg,
            };
            value(unit, frame, right, next, code)?;
            push_combined_behind(unit, operator, &left.ty, &right.ty, to, code)
        }
    }
}

// Appends `++` or `--`.
#[cycle(value)]
pub fn step(
    unit: &Typed,
    frame: &Frame,
    step: Step,
    object: &TExpr,
    to: Destination,
    code: &mut SymCode,
) -> Result<(), AllocError>
    requires { to.temp + need object.now ≤ 32765 }
    ensures { let place = coded unit.now.structs frame.now object.now in OnOk result (Appends code.old
        (step_value unit.now.structs step place.slot place to.temp to.reg) code.new) }
{
    match slot_of(frame, object) {
        Some(start) => push_step_local(unit, step, &object.ty, start, to.reg, code),
        None => {
            place(unit, frame, object, false, to, code)?;
            push_step_behind(unit, step, &object.ty, to.reg, code)
        }
    }
}

//! The parts of expressions that wait for the value of an operand.

ghost use Rattle.std.specs.Prelude.{◌≡◌, List, [], ◌∷◌, ◌++◌};
ghost use Rattle.block_meaning.specs.Running.{Context, State};
ghost use Rattle.mean_machine.specs.Evaluation as machine;
ghost use Rattle.mean_machine.specs.Execution.{enter};
ghost use Rattle.mean_machine.specs.Frames as waiting;
ghost use Rattle.mean_machine.specs.Going.{spend as spend_then};
ghost use Rattle.mean_effects.specs.Shown.{IsNow, IsHere};
ghost use Rattle.mean_expressions.specs.Stacked.{World, Stacked, Stands, operand_of};

use crate::evaluation::{
    Choice, Logical, both_given, condition_given, first_given, operand_first, second_given,
    unary_given, unit_place, unit_value,
};
use crate::frames::{Control, Frame, OperandFrame};
use crate::places::{element_at, member_place};
use block_meaning::Value;
use c_ast::Span;
use c_type_base::{Callee, TExpr, target_of, wrapped_size};
use mean_effects::{Assignment, Ending, Here, Now, Operation, assign_effect, spend};
use mean_memory::{converted_to, pointer_in};

/// A call: the span of its expression, what is called, and the arguments that were evaluated.
#[derive(Drop)]
pub struct Calling {
    pub span: Span,
    pub callee: Callee,
    pub done: Vec<Value>,
}

/// The unit of work of a call, whose arguments were evaluated, is spent.
fn call_next<'a>(n: &mut Now, calling: Calling) -> Result<Control<'a>, Ending>
    ensures { (w : World) (here : Context) (k : List waiting.Frame) (frames : List Frame) (now : State) → Stacked k frames w here
        → IsNow n.old now → Stands n.new frames w here now result
        (spend_then (machine.call enter here k calling.span calling.callee calling.done.items) now) }
{
    match spend(n) {
        Ok(()) => Ok(Control::Call(calling.span, calling.callee, calling.done)),
        Err(e) => Err(e),
    }
}

/// The arguments that are left, and then the call.
pub fn arguments<'a>(
    n: &mut Now,
    stack: &mut Vec<Frame<'a>>,
    calling: Calling,
    left: &'a [TExpr],
) -> Result<Control<'a>, Ending>
    ensures { (w : World) (here : Context) (k : List waiting.Frame) (now : State) → Stacked k stack.old.items w here
        → IsNow n.old now → Stands n.new stack.new.items w here now result
        (machine.arguments enter here k calling.span calling.callee calling.done.items left.now now) }
{
    match left {
        [] => call_next(n, calling),
        [first, rest @ ..] => operand_first(
            stack,
            first,
            OperandFrame::Argument(calling.span, calling.callee, calling.done, rest),
        ),
    }
}

/// An argument has its value.
fn argument_given<'a>(
    n: &mut Now,
    stack: &mut Vec<Frame<'a>>,
    mut calling: Calling,
    left: &'a [TExpr],
    v: Value,
) -> Result<Control<'a>, Ending>
    ensures { (w : World) (here : Context) (k : List waiting.Frame) (now : State) → Stacked k stack.old.items w here
        → IsNow n.old now → Stands n.new stack.new.items w here now result
        (machine.arguments enter here k calling.span calling.callee (calling.done.items ++ v ∷ []) left.now now) }
{
    match calling.done.push(v) {
        Ok(()) => arguments(n, stack, calling, left),
        Err(_) => Err(Ending::NoMemory),
    }
}

/// The right side of an assignment has its value.
fn assign_given<'a>(
    n: &mut Now,
    h: Here<'a>,
    a: Assignment<'a>,
    v: Value,
) -> Result<Control<'a>, Ending>
    ensures { (w : World) (here : Context) (k : List waiting.Frame) (frames : List Frame) (now : State) → IsHere h.entry here
        → Stacked k frames w here → IsNow n.old now → Stands n.new frames w here now result (machine.operand_given enter here k
        (waiting.AssignRight a.entry.span a.entry.operator a.entry.left.now a.entry.right.now a.entry.at) v now) }
{
    match spend(n) {
        Ok(()) => match assign_effect(n, h, a, v) {
            Ok(v) => Ok(Control::GivesValue(v)),
            Err(e) => Err(e),
        },
        Err(e) => Err(e),
    }
}

/// A part of an expression has the value of its operand.
pub fn operand_given<'a>(
    n: &mut Now,
    stack: &mut Vec<Frame<'a>>,
    h: Here<'a>,
    frame: OperandFrame<'a>,
    v: Value,
) -> Result<Control<'a>, Ending>
    ensures { (w : World) (here : Context) (k : List waiting.Frame) (now : State) → IsHere h.entry here
        → Stacked k stack.old.items w here → IsNow n.old now → Stands n.new stack.new.items w here now result
        (machine.operand_given enter here k (operand_of frame.entry) v now) }
{
    match frame {
        OperandFrame::Unary(o, e) => unary_given(n, h, o, e, v),
        OperandFrame::LogicalFirst(decides, first, second) => {
            let logical = Logical {
                decides,
                first,
                second,
            };
            first_given(n, stack, h, logical, v)
        }
        OperandFrame::LogicalSecond(e) => second_given(n, h, e, v),
        OperandFrame::BinaryLeft(span, o, a, b) => {
            operand_first(stack, b, OperandFrame::BinaryRight(span, o, a, b, v))
        }
        OperandFrame::BinaryRight(span, operator, a, b, first) => {
            let o = Operation {
                span,
                operator,
                first_type: &a.ty,
                second_type: &b.ty,
                first,
                second: v,
            };
            both_given(n, h, o)
        }
        OperandFrame::AssignRight(span, operator, left, right, at) => {
            let a = Assignment {
                span,
                operator,
                left,
                right,
                at,
            };
            assign_given(n, h, a, v)
        }
        OperandFrame::Condition(condition, first, second) => {
            let choice = Choice {
                condition,
                first,
                second,
            };
            condition_given(n, h, choice, v)
        }
        OperandFrame::CastTo(t) => unit_value(n, converted_to(t, v)),
        OperandFrame::ConvertTo(t) => Ok(Control::GivesValue(converted_to(t, v))),
        OperandFrame::Argument(span, callee, done, left) => {
            let calling = Calling { span, callee, done };
            argument_given(n, stack, calling, left, v)
        }
        OperandFrame::PointerIn => Ok(Control::GivesPlace(pointer_in(v))),
        OperandFrame::Dereferenced => unit_place(n, pointer_in(v)),
        OperandFrame::IndexLeft(t, i) => operand_first(stack, i, OperandFrame::IndexRight(t, v)),
        OperandFrame::IndexRight(t, first) => {
            unit_place(n, element_at(wrapped_size(t, h.structs), first, v))
        }
        OperandFrame::ArrowTo(e, member) => {
            member_place(n, h, target_of(&e.ty), member, pointer_in(v))
        }
    }
}

//! What comes first for the value of an expression.

ghost use Rattle.std.specs.Prelude.{◌≡◌, List};
ghost use Rattle.block_meaning.specs.Running.{Context, State};
ghost use Rattle.c_type_base.specs.declared.expr.TNode.{out-TNode};
ghost use Rattle.mean_machine.specs.Evaluation as machine;
ghost use Rattle.mean_machine.specs.Execution.{enter};
ghost use Rattle.mean_machine.specs.Frames as waiting;
ghost use Rattle.mean_effects.specs.Shown.{IsNow, IsHere};
ghost use Rattle.mean_expressions.specs.Stacked.{World, Stacked, Stands};
ghost use Rattle.mean_effects.specs.declared.now.Now.{Now as Code};

use crate::evaluation::{operand_first, place_first, unit_value};
use crate::frames::{Control, Frame, OperandFrame, PlaceFrame};
use crate::operands::{Calling, arguments};
use block_meaning::Value;
use c_ast::{BinaryOperator, Span, UnaryOperator};
use c_type_base::{TExpr, TNode, wrapped_size};
use mean_effects::{Ending, Here, Now};

fn evaluate_unary<'a>(
    stack: &mut Vec<Frame<'a>>,
    operator: UnaryOperator,
    e: &'a TExpr,
) -> Result<Control<'a>, Ending>
    ensures { (n : Code) (w : World) (here : Context) (k : List waiting.Frame) (now : State) → Stacked k stack.old.items w here
        → IsNow n now → Stands n stack.new.items w here now result (machine.evaluate_unary here k operator e.now now) }
{
    match operator {
        UnaryOperator::AddressOf => place_first(stack, e, PlaceFrame::Addressed),
        UnaryOperator::Dereference => Err(Ending::NoMemory),
        _ => operand_first(stack, e, OperandFrame::Unary(operator, e)),
    }
}

fn evaluate_binary<'a>(
    stack: &mut Vec<Frame<'a>>,
    span: Span,
    operator: BinaryOperator,
    a: &'a TExpr,
    b: &'a TExpr,
) -> Result<Control<'a>, Ending>
    ensures { (n : Code) (w : World) (here : Context) (k : List waiting.Frame) (now : State) → Stacked k stack.old.items w here
        → IsNow n now → Stands n stack.new.items w here now result (machine.evaluate_binary here k span operator a.now b.now now) }
{
    match operator {
        BinaryOperator::And => operand_first(stack, a, OperandFrame::LogicalFirst(false, a, b)),
        BinaryOperator::Or => operand_first(stack, a, OperandFrame::LogicalFirst(true, a, b)),
        _ => operand_first(stack, a, OperandFrame::BinaryLeft(span, operator, a, b)),
    }
}

/// The first step to the value of an expression, where it stands in parentheses of a span.
pub fn evaluate<'a>(
    n: &mut Now,
    stack: &mut Vec<Frame<'a>>,
    h: Here<'a>,
    around: Span,
    e: &'a TExpr,
) -> Result<Control<'a>, Ending>
    ensures { (w : World) (here : Context) (k : List waiting.Frame) (now : State) → IsHere h.entry here
        → Stacked k stack.old.items w here → IsNow n.old now → Stands n.new stack.new.items w here now result
        (machine.evaluate enter here k around e.now (out-TNode e.now.node) now) }
{
    match e.node.get() {
        TNode::Constant(number, _) => unit_value(n, Value::Number(*number)),
        TNode::Paren(a) => Ok(Control::Evaluate(around, a)),
        TNode::Unary(o, a) => evaluate_unary(stack, *o, a),
        TNode::Binary(o, a, b) => evaluate_binary(stack, e.span, *o, a, b),
        TNode::Assign(o, a, b) => place_first(stack, a, PlaceFrame::AssignLeft(e.span, *o, a, b)),
        TNode::Cond(c, a, b) => operand_first(stack, c, OperandFrame::Condition(c, a, b)),
        TNode::Cast(t, a) => operand_first(stack, a, OperandFrame::CastTo(t)),
        TNode::SizeofExpr(a) => unit_value(n, Value::Number(wrapped_size(&a.ty, h.structs))),
        TNode::SizeofName(t) => unit_value(n, Value::Number(wrapped_size(t, h.structs))),
        TNode::Call(callee, left) => {
            let calling = Calling {
                span: e.span,
                callee: *callee,
                done: Vec::new(*stack.allocator()),
            };
            arguments(n, stack, calling, left.as_slice())
        }
        TNode::Step(s, a) => place_first(stack, a, PlaceFrame::Stepped(*s, a)),
        TNode::Read(a) => place_first(stack, a, PlaceFrame::ReadFrom(a)),
        TNode::Decay(a) => place_first(stack, a, PlaceFrame::Decayed),
        TNode::Convert(a) => operand_first(stack, a, OperandFrame::ConvertTo(&e.ty)),
        TNode::Member(a, member) => {
            place_first(stack, a, PlaceFrame::MemberRead(a, *member, around, &e.ty))
        }
        _ => Err(Ending::NoMemory),
    }
}

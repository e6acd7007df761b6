//! Assignments.

ghost use Rattle.std.specs.Prelude.{◌≡◌};
ghost use Rattle.block_meaning.specs.Expressions as spec;
ghost use Rattle.block_meaning.specs.Operators as operators;
ghost use Rattle.block_meaning.specs.Running.{Context, State};
ghost use Rattle.block_meaning.specs.declared.value.Value.TheVariants as value;
ghost use Rattle.mean_machine.specs.Evaluation as machine;
ghost use Rattle.mean_effects.specs.Effects.{combined_written, left_written, operation_gives, site_of};
ghost use Rattle.mean_effects.specs.Shown.{IsNow, IsHere, Gives};
ghost use Rattle.mean_effects.specs.declared.now.Now.{Now as Code};

use crate::access::read_scalar;
use crate::copying::{Copy, copy_struct};
use crate::here::Here;
use crate::now::{Ending, Now};
use crate::object::Object;
use crate::operators::{Operation, int_in, on_values};
use crate::writing::write;
use block_meaning::{Pointer, Value};
use c_ast::{AssignOperator, BinaryOperator, IntType, Span};
use c_type_base::{TExpr, Ty, binary_value, promoted, wrap};
use mean_memory::converted_to;

/// An assignment: its operator, if it is a compound one, its sides, and where the left one stands.
#[derive(Clone, Copy)]
pub struct Assignment<'a> {
    pub span: Span,
    pub operator: Option<AssignOperator>,
    pub left: &'a TExpr,
    pub right: &'a TExpr,
    pub at: Pointer,
}

/// A scalar is written to the left side.
fn write_left(n: &mut Now, h: Here, a: Assignment, v: Value) -> Result<Value, Ending>
    ensures { (here : Context) (now : State) → IsHere h.entry here → IsNow n.old now
        → Gives n.new now result (left_written here a.entry v now) }
{
    let o = Object {
        ty: &a.left.ty,
        at: a.at,
    };
    match write(n, h, a.left.span, o, v) {
        Ok(()) => Ok(v),
        Err(e) => Err(e),
    }
}

/// A struct is copied to the left side.
fn copy_to_left(n: &mut Now, h: Here, a: Assignment, q: Pointer) -> Result<Value, Ending>
    ensures { (here : Context) (now : State) → IsHere h.entry here → IsNow n.old now → Gives n.new now result
        (spec.assigned (site_of here a.entry) a.entry.left.now a.entry.right.now a.entry.at (value.Struct q) now) }
{
    let copy = Copy {
        source: Object {
            ty: &a.left.ty,
            at: q,
        },
        target: Object {
            ty: &a.left.ty,
            at: a.at,
        },
        source_span: a.right.span,
        target_span: a.left.span,
        span: a.span,
    };
    match copy_struct(n, h, copy) {
        Ok(()) => Ok(Value::Struct(a.at)),
        Err(e) => Err(e),
    }
}

/// A simple assignment.
fn assigned(n: &mut Now, h: Here, a: Assignment, v: Value) -> Result<Value, Ending>
    ensures { (here : Context) (now : State) → IsHere h.entry here → IsNow n.old now → Gives n.new now result
        (spec.assigned (site_of here a.entry) a.entry.left.now a.entry.right.now a.entry.at v now) }
{
    match v {
        Value::Struct(q) => copy_to_left(n, h, a, q),
        Value::Number(k) => write_left(n, h, a, Value::Number(k)),
        Value::Address(p) => write_left(n, h, a, Value::Address(p)),
        Value::NoValue => write_left(n, h, a, Value::NoValue),
    }
}

fn binary_of(o: AssignOperator) -> BinaryOperator
    ensures { result ≡ operators.binary_of o }
{
    match o {
        AssignOperator::Add => BinaryOperator::Add,
        AssignOperator::Subtract => BinaryOperator::Subtract,
        AssignOperator::Multiply => BinaryOperator::Multiply,
        AssignOperator::Divide => BinaryOperator::Divide,
        AssignOperator::Remainder => BinaryOperator::Remainder,
        AssignOperator::ShiftLeft => BinaryOperator::ShiftLeft,
        AssignOperator::ShiftRight => BinaryOperator::ShiftRight,
        AssignOperator::BitAnd => BinaryOperator::BitAnd,
        AssignOperator::BitXor => BinaryOperator::BitXor,
        AssignOperator::BitOr => BinaryOperator::BitOr,
    }
}

/// The type in which a compound assignment computes, by the types of its sides.
fn computing_type(o: BinaryOperator, s: IntType, t: IntType) -> IntType
    ensures { result ≡ operators.computing_type o s t }
{
    match o {
        BinaryOperator::ShiftLeft | BinaryOperator::ShiftRight => promoted(s),
        _ => t,
    }
}

/// Two numbers, in the left side's type.
fn numbers_combined(o: Operation, t: IntType, k: u64, l: u64) -> Result<Value, Ending>
    ensures { (n : Code) (now : State) → IsNow n now
        → Gives n now result (operators.numbers_combined o.entry.operator o.entry.first_type.now t k l now) }
{
    match binary_value(o.operator, t, wrap(t, k), l) {
        Some(n) => Ok(converted_to(o.first_type, Value::Number(n))),
        None => Err(Ending::Divide),
    }
}

/// A number on the left side.
fn number_combined(n: &mut Now, h: Here, o: Operation, k: u64) -> Result<Value, Ending>
    ensures { (here : Context) (now : State) → o.entry.first ≡ value.Number k → IsHere h.entry here → IsNow n.old now
        → Gives n.new now result (operation_gives here o.entry now) }
{
    match o.second {
        Value::Number(l) => {
            let s = int_in(o.first_type);
            let u = int_in(o.second_type);
            let t = computing_type(o.operator, s, u);
            numbers_combined(o, t, k, l)
        }
        Value::Address(_) => on_values(n, h, o),
        _ => Err(Ending::NoMemory),
    }
}

/// An operator with the values of both sides.
fn values_combined(n: &mut Now, h: Here, o: Operation) -> Result<Value, Ending>
    ensures { (here : Context) (now : State) → IsHere h.entry here → IsNow n.old now
        → Gives n.new now result (operation_gives here o.entry now) }
{
    match o.first {
        Value::Number(k) => number_combined(n, h, o, k),
        Value::Address(_) => on_values(n, h, o),
        _ => Err(Ending::NoMemory),
    }
}

/// The value that they give is written to the left side.
fn write_combined(n: &mut Now, h: Here, a: Assignment, o: Operation) -> Result<Value, Ending>
    ensures { (here : Context) (now : State) → IsHere h.entry here → IsNow n.old now
        → Gives n.new now result (combined_written here a.entry o.entry now) }
{
    match values_combined(n, h, o) {
        Ok(r) => write_left(n, h, a, r),
        Err(e) => Err(e),
    }
}

/// A compound assignment, which reads its left side after its right side.
fn compound(
    n: &mut Now,
    h: Here,
    a: Assignment,
    o: AssignOperator,
    w: Value,
) -> Result<Value, Ending>
    ensures { (here : Context) (now : State) → IsHere h.entry here → IsNow n.old now → Gives n.new now result
        (spec.compound (site_of here a.entry) o a.entry.left.now a.entry.right.now a.entry.at w now) }
{
    match read_scalar(n, h, a.left.span, &a.left.ty, a.at) {
        Ok(first) => {
            let operation = Operation {
                span: a.span,
                operator: binary_of(o),
                first_type: &a.left.ty,
                second_type: &a.right.ty,
                first,
                second: w,
            };
            write_combined(n, h, a, operation)
        }
        Err(e) => Err(e),
    }
}

/// An assignment whose right side has its value, but for the unit of work.
pub fn assign_effect(n: &mut Now, h: Here, a: Assignment, v: Value) -> Result<Value, Ending>
    ensures { (here : Context) (now : State) → IsHere h.entry here → IsNow n.old now → Gives n.new now result
        (spec.assign_effect (machine.bare_site here a.entry.span a.entry.left.now.ty) a.entry.operator a.entry.left.now
        a.entry.right.now a.entry.at v now) }
{
    match a.operator {
        Some(o) => compound(n, h, a, o, v),
        None => assigned(n, h, a, v),
    }
}

//! What operators give on values.

ghost use Rattle.std.specs.Prelude.{◌≡◌, ◌≤◌, ℕ, ◌*◌, ◌%◌, ◌^◌, not, MatchOption};
ghost use Rattle.block_meaning.specs.declared.value.Value.TheVariants as value;
ghost use Rattle.block_meaning.specs.Blocks.{moved};
ghost use Rattle.block_meaning.specs.Compare.{objects_between};
ghost use Rattle.block_meaning.specs.Operators as spec;
ghost use Rattle.block_meaning.specs.Running.{Context, State};
ghost use Rattle.c_ast.specs.declared.int_type.IntType.TheVariants as int;
ghost use Rattle.c_type_base.specs.Arithmetic as arithmetic;
ghost use Rattle.mean_machine.specs.Evaluation as machine;
ghost use Rattle.mean_effects.specs.Laws.Comparing as law;
ghost use Rattle.mean_effects.specs.Laws.Comparing.{compares};
ghost use Rattle.mean_effects.specs.Shown.{IsNow, IsHere, Gives};
ghost use Rattle.mean_effects.specs.declared.now.Now.{Now as Code};

use crate::effects::{comparison, is_true};
use crate::here::Here;
use crate::now::{Ending, Now};
use crate::sizes::{exact_target, target_size};
use block_meaning::{Pointer, Reason, Value};
use c_ast::{BinaryOperator, IntType, Span, UnaryOperator};
use c_type_base::{TExpr, Ty, binary_value, int_of, negated, quotient, unary_value};
use mean_memory::{difference, number_in};

/// An operator and two pointers.
#[derive(Clone, Copy)]
pub struct Both {
    pub operator: BinaryOperator,
    pub first: Pointer,
    pub second: Pointer,
}

/// The integer type that a type is, and else int.
pub fn int_in(ty: &Ty) -> IntType
    ensures { result ≡ spec.int_in ty.now }
{
    match int_of(ty) {
        Some(t) => t,
        None => IntType::Int,
    }
}

/// 1 or 0.
pub fn number_of_truth(b: bool) -> Value
    ensures { result ≡ spec.number_of_truth b }
{
    Value::Number(if b { 1 } else { 0 })
}

/// So many objects of a size on.
pub fn moved_by(p: Pointer, n: u64, bytes: u64) -> Pointer
    ensures { (size : ℕ) → bytes ≡ size % 2 ^ 64 → result ≡ moved p (n * size) }
{
    mean_memory::moved(p, n.wrapping_mul(bytes))
}

fn or_divide(n: Option<u64>) -> Result<Value, Ending>
    ensures { (m : Code) (now : State) → IsNow m now → Gives m now result (spec.or_divide n now) }
{
    match n {
        Some(n) => Ok(Value::Number(n)),
        None => Err(Ending::Divide),
    }
}

/// A pointer and a number of objects of a size, which is told modulo 2^64.
fn on_pointer(operator: BinaryOperator, bytes: u64, p: Pointer, k: u64) -> Result<Value, Ending>
    ensures { (size : ℕ) (m : Code) (now : State) → bytes ≡ size % 2 ^ 64 → IsNow m now
        → Gives m now result (spec.on_pointer operator size p k now) }
{
    match operator {
        BinaryOperator::Add => Ok(Value::Address(moved_by(p, k, bytes))),
        BinaryOperator::Subtract => Ok(Value::Address(moved_by(p, negated(k), bytes))),
        _ => Err(Ending::NoMemory),
    }
}

/// An operator on the value of an operand, but for its unit.
pub fn unary_effect(
    n: &mut Now,
    h: Here,
    operator: UnaryOperator,
    e: &TExpr,
    v: Value,
) -> Result<Value, Ending>
    ensures { (here : Context) (now : State) → IsHere h.entry here → IsNow n.old now
        → Gives n.new now result (machine.unary_effect here operator e.now v now) }
{
    match operator {
        UnaryOperator::Not => Ok(number_of_truth(!is_true(n, h, e.span, v)?)),
        _ => match unary_value(operator, int_in(&e.ty), number_in(v)) {
            Some(k) => Ok(Value::Number(k)),
            None => Err(Ending::NoMemory),
        },
    }
}

/// The second operand of `&&` or `||`.
pub fn second_effect(n: &mut Now, h: Here, e: &TExpr, v: Value) -> Result<Value, Ending>
    ensures { (here : Context) (now : State) → IsHere h.entry here → IsNow n.old now
        → Gives n.new now result (machine.second_effect here e.now v now) }
{
    Ok(number_of_truth(is_true(n, h, e.span, v)?))
}

/// Two pointers.
fn on_pointers(n: &mut Now, h: Here, span: Span, t: &Ty, both: Both) -> Result<Value, Ending>
    ensures { (here : Context) (now : State) → IsHere h.entry here → IsNow n.old now
        → Gives n.new now result (spec.on_pointers here span both.operator (spec.target_size here t.now) both.first both.second now) }
{
    match both.operator {
        BinaryOperator::Subtract => subtracted(h, span, t, both.first, both.second),
        _ => compared_values(n, h, span, both),
    }
}

/// A comparison of two pointers, as a value.
fn compared_values(n: &mut Now, h: Here, span: Span, both: Both) -> Result<Value, Ending>
    ensures { (here : Context) (now : State) → IsHere h.entry here → IsNow n.old now
        → Gives n.new now result (compares here span both.operator both.first both.second now) }
{
    match compared_now(n, h, span, both) {
        Ok(b) => Ok(number_of_truth(b)),
        Err(e) => Err(e),
    }
}

fn compared_now(n: &mut Now, h: Here, span: Span, both: Both) -> Result<bool, Ending>
    ensures { (here : Context) (now : State) → IsHere h.entry here → IsNow n.old now
        → Gives n.new now result (law.compared_now here span both.operator both.first both.second now) }
{
    let b = n.memory.compared(both.operator, both.first, both.second);
    comparison(h, span, b)
}

/// How many objects of what a type points to lie between two pointers.
fn subtracted(h: Here, span: Span, t: &Ty, p: Pointer, q: Pointer) -> Result<Value, Ending>
    ensures { (here : Context) (n : Code) (now : State) → IsHere h.entry here → IsNow n now
        → Gives n now result (spec.difference_known here span (objects_between p q (spec.target_size here t.now)) now) }
{
    if p.block != q.block {
        return Err(Ending::Undefined(Reason::Compare, h.unit, span));
    }
    Ok(Value::Number(quotient_by(difference(p, q), exact_target(h, t))))
}

/// A number of type long by a size, or by none of 64 bits.
fn quotient_by(n: u64, size: Option<u64>) -> u64
    ensures { (bytes : ℕ) → MatchOption size (2 ^ 64 ≤ bytes) (λ k. k ≡ bytes) → result ≡ arithmetic.quotient int.Long n bytes }
{
    match size {
        Some(size) => quotient(IntType::Long, n, size).unwrap_or(0),
        None => 0,
    }
}

/// An operator and its operands.
#[derive(Clone, Copy)]
pub struct Operation<'a> {
    pub span: Span,
    pub operator: BinaryOperator,
    pub first_type: &'a Ty,
    pub second_type: &'a Ty,
    pub first: Value,
    pub second: Value,
}

fn on_number(h: Here, o: Operation, k: u64) -> Result<Value, Ending>
    ensures { (here : Context) (n : Code) (now : State) → IsHere h.entry here → IsNow n now
        → Gives n now result (spec.on_values here o.entry.span o.entry.operator o.entry.first_type.now o.entry.second_type.now
        (value.Number k) o.entry.second now) }
{
    match o.second {
        Value::Number(l) => or_divide(binary_value(o.operator, int_in(o.first_type), k, l)),
        Value::Address(q) => on_pointer(o.operator, target_size(h, o.second_type), q, k),
        _ => Err(Ending::NoMemory),
    }
}

fn on_address(n: &mut Now, h: Here, o: Operation, p: Pointer) -> Result<Value, Ending>
    ensures { (here : Context) (now : State) → IsHere h.entry here → IsNow n.old now
        → Gives n.new now result (spec.on_values here o.entry.span o.entry.operator o.entry.first_type.now o.entry.second_type.now
        (value.Address p) o.entry.second now) }
{
    match o.second {
        Value::Number(k) => on_pointer(o.operator, target_size(h, o.first_type), p, k),
        Value::Address(q) => on_pointers(
            n,
            h,
            o.span,
            o.first_type,
            Both {
                operator: o.operator,
                first: p,
                second: q,
            },
        ),
        _ => Err(Ending::NoMemory),
    }
}

/// An operator on two values.
pub fn on_values(n: &mut Now, h: Here, o: Operation) -> Result<Value, Ending>
    ensures { (here : Context) (now : State) → IsHere h.entry here → IsNow n.old now
        → Gives n.new now result (spec.on_values here o.entry.span o.entry.operator o.entry.first_type.now o.entry.second_type.now
        o.entry.first o.entry.second now) }
{
    match o.first {
        Value::Number(k) => on_number(h, o, k),
        Value::Address(p) => on_address(n, h, o, p),
        _ => Err(Ending::NoMemory),
    }
}

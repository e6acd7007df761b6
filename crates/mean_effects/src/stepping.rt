//! `++` and `--`.

ghost use Rattle.std.specs.Prelude.{◌≡◌, ◌+◌, IfSome, if◌then◌else◌};
ghost use Rattle.block_meaning.specs.Operators as spec;
ghost use Rattle.block_meaning.specs.Running.{Context, State};
ghost use Rattle.block_meaning.specs.Values.{converted_to};
ghost use Rattle.block_meaning.specs.declared.value.Value.TheVariants.{Number};
ghost use Rattle.c_type_base.specs.Conversions as conversion;
ghost use Rattle.mean_machine.specs.Evaluation as machine;
ghost use Rattle.mean_effects.specs.Effects.{step_written};
ghost use Rattle.mean_effects.specs.Shown.{IsNow, IsHere, Gives};

use crate::access::read_scalar;
use crate::here::Here;
use crate::now::{Ending, Now};
use crate::object::Object;
use crate::operators::moved_by;
use crate::sizes::target_size;
use crate::writing::write;
use block_meaning::{Pointer, Value};
use c_ast::{IntType, Step};
use c_type_base::{TExpr, Ty, wrap};

fn is_increment(s: Step) -> bool
    ensures { result ≡ spec.is_increment s }
{
    match s {
        Step::PreIncrement | Step::PostIncrement => true,
        _ => false,
    }
}

fn gives_old(s: Step) -> bool
    ensures { result ≡ spec.gives_old s }
{
    match s {
        Step::PostIncrement | Step::PostDecrement => true,
        _ => false,
    }
}

/// One more or one less, modulo 2^64.
fn by_one(s: Step) -> u64
    ensures { result ≡ spec.by_one s }
{
    if is_increment(s) {
        1
    } else {
        18446744073709551615
    }
}

fn wrapped_sum(t: IntType, n: u64, k: u64) -> u64
    ensures { result ≡ conversion.wrap t (n + k) }
{
    wrap(t, n.wrapping_add(k))
}

fn stepped_number(s: Step, ty: &Ty, n: u64) -> Option<Value>
    ensures { IfSome result (λ w. w ≡ converted_to ty.now (Number (n + spec.by_one s))) }
{
    match ty {
        Ty::Int(t) => Some(Value::Number(wrapped_sum(*t, n, by_one(s)))),
        _ => None,
    }
}

/// A scalar that is stepped.
fn stepped(h: Here, s: Step, ty: &Ty, v: Value) -> Option<Value>
    ensures { IfSome result (λ w. (here : Context) → IsHere h.entry here → w ≡ spec.stepped here s ty.now v) }
{
    match v {
        Value::Address(p) => Some(Value::Address(moved_by(p, by_one(s), target_size(h, ty)))),
        Value::Number(n) => stepped_number(s, ty, n),
        _ => None,
    }
}

/// A value before and after its step.
#[derive(Clone, Copy)]
struct Change {
    old: Value,
    new: Value,
}

fn chosen(s: Step, v: Change) -> Value
    ensures { result ≡ (if spec.gives_old s then v.old else v.new) }
{
    if gives_old(s) { v.old } else { v.new }
}

/// What was stepped is written.
fn write_stepped(
    n: &mut Now,
    h: Here,
    s: Step,
    o: (&TExpr, Pointer),
    v: Change,
) -> Result<Value, Ending>
    ensures { (here : Context) (now : State) → IsHere h.entry here → IsNow n.old now
        → Gives n.new now result (step_written here s o.entry.0.now o.entry.1 v.old v.new now) }
{
    match write(
        n,
        h,
        o.0.span,
        Object {
            ty: &o.0.ty,
            at: o.1,
        },
        v.new,
    ) {
        Ok(()) => Ok(chosen(s, v)),
        Err(e) => Err(e),
    }
}

/// `++` and `--` at a place, but for the unit of work.
pub fn step_effect(n: &mut Now, h: Here, s: Step, e: &TExpr, p: Pointer) -> Result<Value, Ending>
    ensures { (here : Context) (now : State) → IsHere h.entry here → IsNow n.old now
        → Gives n.new now result (machine.step_effect here s e.now p now) }
{
    match read_scalar(n, h, e.span, &e.ty, p) {
        Ok(old) => match stepped(h, s, &e.ty, old) {
            Some(new) => write_stepped(n, h, s, (e, p), Change { old, new }),
            None => Err(Ending::NoMemory),
        },
        Err(e) => Err(e),
    }
}

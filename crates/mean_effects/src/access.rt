//! Reading and writing what stands at a place.

ghost use Rattle.std.specs.Prelude.{◌≡◌, ◌≤◌, ◌^◌, MatchOption, IfSome};
ghost use Rattle.block_meaning.specs.Memory as spec;
ghost use Rattle.block_meaning.specs.Running.{Context, State};
ghost use Rattle.c_type_base.specs.Sizes.{size};
ghost use Rattle.mean_memory.specs.Filled.{Reads};
ghost use Rattle.mean_effects.specs.Shown.{IsNow, IsHere, Gives};
ghost use Rattle.mean_effects.specs.Objects.{object_of};

use crate::here::Here;
use crate::now::{Ending, Now};
use crate::object::Object;
use crate::sizes::exact_size;
use block_meaning::{Access, Pointer, Value};
use c_ast::Span;
use c_type_base::{StructInfo, Ty, align_of, int_size, is_struct};

/// The bytes of a type that is accessed, if they are a number of 64 bits.
#[tactic(auto, using(crate::specs::Laws::Reading::int_at_most))]
fn accessed_size(ty: &Ty, structs: &[StructInfo]) -> Option<u64>
    ensures is { MatchOption result (2 ^ 64 ≤ size structs.now ty.now) (λ n. n ≡ size structs.now ty.now) }
    ensures fits { IfSome result (λ n. Reads ty.now n) }
{
    match ty {
        Ty::Int(t) => Some(int_size(*t)),
        Ty::Pointer(_) => Some(8),
        _ => exact_size(ty, structs),
    }
}

/// The access to an object, by its size.
pub fn access_of(h: Here, writes: bool, o: Object, size: u64) -> Access
    ensures is { (here : Context) → IsHere h.entry here → size ≡ spec.bytes_of here o.entry.ty.now
        → result ≡ spec.access here writes (object_of o.entry) }
    ensures sized { result.size ≡ size }
{
    Access {
        at: o.at,
        size,
        align: align_of(o.ty, h.structs),
        writes,
        scalar: !is_struct(o.ty),
    }
}

/// The access to an object.
pub fn access(h: Here, writes: bool, o: Object) -> Option<Access>
    ensures is { IfSome result (λ a. (here : Context) → IsHere h.entry here → a ≡ spec.access here writes (object_of o.entry)) }
    ensures fits { IfSome result (λ a. Reads o.entry.ty.now a.size) }
{
    match accessed_size(o.ty, h.structs) {
        Some(size) => Some(access_of(h, writes, o, size)),
        None => None,
    }
}

/// Reads a scalar. An object whose bytes are no number of 64 bits finds no memory.
pub fn read_scalar(n: &mut Now, h: Here, span: Span, ty: &Ty, at: Pointer) -> Result<Value, Ending>
    ensures { (here : Context) (now : State) → IsHere h.entry here → IsNow n.old now
        → Gives n.new now result (spec.read_scalar here span (spec.object ty.now at) now) }
{
    let Some(a) = access(h, false, Object { ty, at }) else {
        return Err(Ending::NoMemory);
    };
    match n.memory.read(ty, a) {
        Ok(v) => Ok(v),
        Err(why) => Err(Ending::Undefined(why, h.unit, span)),
    }
}

/// Reads a scalar, or tells where a struct stands.
pub fn read(n: &mut Now, h: Here, span: Span, ty: &Ty, at: Pointer) -> Result<Value, Ending>
    ensures { (here : Context) (now : State) → IsHere h.entry here → IsNow n.old now
        → Gives n.new now result (spec.read here span (spec.object ty.now at) now) }
{
    if is_struct(ty) {
        Ok(Value::Struct(at))
    } else {
        read_scalar(n, h, span, ty, at)
    }
}

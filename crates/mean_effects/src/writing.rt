//! Writing scalars.

ghost use Rattle.std.specs.Prelude.{◌≡◌, true, List, IfSome};
ghost use Rattle.block_meaning.specs.Memory as spec;
ghost use Rattle.block_meaning.specs.Running.{Context, State};
ghost use Rattle.c_type_base.specs.Sizes.{size};
ghost use Rattle.c_type_base.specs.declared.typed.StructInfo.{StructInfo};
ghost use Rattle.mean_memory.specs.Filled.{Fills};
ghost use Rattle.mean_effects.specs.Shown.{IsNow, IsHere, Gives};
ghost use Rattle.mean_effects.specs.Objects.{object_of};

use crate::access::access_of;
use crate::answers::answered;
use crate::here::Here;
use crate::now::{Ending, Now};
use crate::object::Object;
use block_meaning::{Access, Value};
use c_ast::Span;
use c_type_base::{Ty, int_size};

/// The bytes of a scalar type.
fn scalar_size(ty: &Ty) -> Option<u64>
    ensures is { IfSome result (λ n. (structs : List StructInfo) → n ≡ size structs ty.now) }
    ensures fills { IfSome result (λ n. Fills ty.now n) }
{
    match ty {
        Ty::Int(t) => Some(int_size(*t)),
        Ty::Pointer(_) => Some(8),
        _ => None,
    }
}

/// The access that writes a scalar.
fn writing(h: Here, o: Object) -> Option<Access>
    ensures is { IfSome result (λ a. (here : Context) → IsHere h.entry here → a ≡ spec.access here true (object_of o.entry)) }
    ensures fills { IfSome result (λ a. Fills o.entry.ty.now a.size) }
{
    match scalar_size(o.ty) {
        Some(size) => Some(access_of(h, true, o, size)),
        None => None,
    }
}

/// Writes a scalar. A type that is none finds no memory.
pub fn write(n: &mut Now, h: Here, span: Span, o: Object, v: Value) -> Result<(), Ending>
    ensures { (here : Context) (now : State) → IsHere h.entry here → IsNow n.old now
        → Gives n.new now result (spec.write here span (object_of o.entry) v now) }
{
    let Some(a) = writing(h, o) else {
        return Err(Ending::NoMemory);
    };
    answered(h, span, n.memory.write(o.ty, a, v))
}

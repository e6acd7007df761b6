//! Sizes of what is accessed or pointed to.

ghost use Rattle.std.specs.Prelude.{◌≡◌, ◌≤◌, ◌%◌, ◌^◌, MatchOption};
ghost use Rattle.block_meaning.specs.Operators as spec;
ghost use Rattle.block_meaning.specs.Running.{Context};
ghost use Rattle.c_type_base.specs.Sizes.{size};
ghost use Rattle.mean_effects.specs.Shown.{IsHere};

use crate::here::Here;
use c_type_base::{StructInfo, Ty, capped_size, target_of, wrapped_size};
use sqlite_items::at;

/// The bytes of a type, if they are a number of 64 bits.
pub fn exact_size(ty: &Ty, structs: &[StructInfo]) -> Option<u64>
    ensures { MatchOption result (2 ^ 64 ≤ size structs.now ty.now) (λ n. n ≡ size structs.now ty.now) }
{
    let capped = capped_size(ty, structs);
    if capped < 18446744073709551615 {
        return Some(capped);
    }
    match ty {
        Ty::Array(element, length) => match exact_size(element.get(), structs) {
            Some(bytes) => length.checked_mul(bytes),
            None => None,
        },
        Ty::Struct(number) => match at(structs, *number as usize) {
            Some(info) => Some(info.bytes),
            None => Some(0),
        },
        _ => Some(capped),
    }
}

/// The bytes of what a pointer of a type points to, modulo 2^64.
pub fn target_size(h: Here, ty: &Ty) -> u64
    ensures { (here : Context) → IsHere h.entry here → result ≡ spec.target_size here ty.now % 2 ^ 64 }
{
    match target_of(ty) {
        Some(target) => wrapped_size(target, h.structs),
        None => 1,
    }
}

/// The bytes of what a pointer of a type points to, if they are a number of 64 bits.
pub fn exact_target(h: Here, ty: &Ty) -> Option<u64>
    ensures { (here : Context) → IsHere h.entry here
        → MatchOption result (2 ^ 64 ≤ spec.target_size here ty.now) (λ n. n ≡ spec.target_size here ty.now) }
{
    match target_of(ty) {
        Some(target) => exact_size(target, h.structs),
        None => Some(1),
    }
}

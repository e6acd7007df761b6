//! Sizes of what pointers point to, as the code divides by them.

ghost use Rattle.std.specs.Prelude.{◌≡◌, ◌≤◌, ◌^◌, MatchOption};
ghost use Rattle.c_type_base.specs.Sizes.{size};
ghost use Rattle.gen_base.specs.Operators as spec;

use c_type_base::{StructInfo, Ty, Typed, capped_size};
use sqlite_items::at;

// The bytes of a type, if they are a number of 64 bits.
fn exact_size(ty: &Ty, structs: &[StructInfo]) -> Option<u64>
    ensures { MatchOption result (2 ^ 64 ≤ size structs.now ty.now) (λ n. n ≡ size structs.now ty.now) }
{
    let capped = capped_size(ty, structs);
    if capped < 18446744073709551615 {
        return Some(capped);
    }
    match ty {
        Ty::Array(element, length) => match exact_size(element.get(), structs) {
            Some(bytes) => length.checked_mul(bytes),
            None => None,
        },
        Ty::Struct(number) => match at(structs, *number as usize) {
            Some(info) => Some(info.bytes),
            None => Some(0),
        },
        _ => Some(capped),
    }
}

/// The bytes by which a difference of pointers to a type is divided.
pub fn divisor_of(unit: &Typed, ty: &Ty) -> u64
    ensures { result ≡ spec.divisor_size unit.now.structs ty.now }
{
    match exact_size(ty, unit.structs.as_slice()) {
        Some(bytes) => bytes,
        None => 0,
    }
}

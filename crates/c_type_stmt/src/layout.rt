//! The first scalar of an object, which stands at its start (C11 6.7.2.1 paragraph 15).

ghost use Rattle.std.specs.Prelude.{◌≡◌, ℕ, IfSome, IfNone, option_copied};
ghost use Rattle.c_type_base.specs.Layout.{first_by, first_scalar};
ghost use Rattle.c_type_stmt.specs.Slots.{member_at};

use crate::first_bytes::int_width;
use c_type_base::{MemberInfo, StructInfo, Ty};
use sqlite_items::at;

/// A member by the numbers of its struct and of itself.
pub fn member(structs: &[StructInfo], number: u32, k: usize) -> Option<&MemberInfo>
    ensures { option_copied result ≡ member_at structs.now number k }
{
    match at(structs, number as usize) {
        None => None,
        Some(info) => at(info.members.as_slice(), k),
    }
}

/// The struct of which a type is, or of which an array is, however deep.
#[tactic(auto, using(crate::proofs::PlaceLaws::within_some, crate::proofs::PlaceLaws::within_none))]
fn struct_within(t: &Ty) -> Option<u32>
    ensures some { IfSome result (λ n. (f : ℕ → ℕ) → first_by f t.now ≡ f n) }
    ensures none { IfNone result ((f : ℕ → ℕ) → first_by f t.now ≡ first_by (λ n. 0) t.now) }
{
    match t {
        Ty::Struct(number) => Some(*number),
        Ty::Array(element, _) => struct_within(element.get()),
        _ => None,
    }
}

/// The bytes of the first scalar in what is made of no struct.
fn scalar_within(t: &Ty) -> u8
    ensures { result ≡ first_by (λ n. 0) t.now }
{
    match t {
        Ty::Void => 0,
        Ty::Int(int) => int_width(*int),
        Ty::Pointer(_) => 8,
        Ty::Array(element, _) => scalar_within(element.get()),
        Ty::Struct(_) => 0,
    }
}

/// The bytes of the first scalar in an object of a type. There are no more structs in one another than the table has.
pub fn first_scalar(structs: &[StructInfo], t: &Ty) -> u8
    ensures { result ≡ first_scalar structs.now t.now }
{
    let mut inner = t;
    let mut left = structs.len();
    while left > 0 {
        left -= 1;
        let Some(number) = struct_within(inner) else {
            return scalar_within(inner);
        };
        let Some(first) = member(structs, number, 0) else {
            return 0;
        };
        inner = &first.ty;
    }
    scalar_within(inner)
}

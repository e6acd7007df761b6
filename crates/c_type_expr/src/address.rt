//! Addresses that are known before the run (C11 6.6 paragraph 9).

ghost use Rattle.std.specs.Prelude.{◌≡◌};
ghost use Rattle.c_type_base.specs.Constants.{moved, direction};
ghost use Rattle.c_type_expr.specs.Postfix as spec;
ghost use Rattle.c_type_base.specs.Sizes.{size};

use c_type_base::{Constancy, Fixed, Known, StructInfo, Ty, moved, wrapped_size};

/// An address that is moved by a constant number of elements of a type, forward or back.
pub fn moved_by_elements(
    structs: &[StructInfo],
    back: bool,
    element: &Ty,
    fixed: Option<Fixed>,
    constant: Constancy,
) -> Option<Fixed>
    ensures { result ≡ moved (direction back) (size structs.now element.now) fixed constant }
{
    moved(back, wrapped_size(element, structs), fixed, constant)
}

/// The address of the element of a pointer by an integer.
pub fn index_fixed(
    structs: &[StructInfo],
    element: &Ty,
    pointer: &Known,
    integer: &Known,
) -> Option<Fixed>
    ensures { result ≡ spec.index_fixed structs.now element.now pointer.now integer.now }
{
    if pointer.path {
        moved_by_elements(structs, false, element, pointer.fixed, integer.constant)
    } else {
        None
    }
}

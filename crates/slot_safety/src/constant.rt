//! Integer constant expressions of which the types are known.

ghost use Rattle.std.specs.Prelude.{◌≡◌};
ghost use Rattle.slot_safety.specs.Constants as spec;

use c_ast::{BinaryOperator, UnaryOperator};
use c_type_base::{Constancy, Ty, constant_of, constant_of_one, int_of};

/// What an operator on an operand of a type gives.
pub fn unary_constant(operator: UnaryOperator, ty: &Ty, operand: Constancy) -> Constancy
    ensures { result ≡ spec.unary_constant operator ty.now operand }
{
    match operator {
        UnaryOperator::AddressOf | UnaryOperator::Dereference => Constancy::Varies,
        _ => match int_of(ty) {
            None => Constancy::Varies,
            Some(int) => constant_of_one(operator, int, operand),
        },
    }
}

/// What an operator gives whose first operand has a type.
pub fn binary_constant(
    operator: BinaryOperator,
    ty: &Ty,
    left: Constancy,
    right: Constancy,
) -> Constancy
    ensures { result ≡ spec.binary_constant operator ty.now left right }
{
    match int_of(ty) {
        None => Constancy::Varies,
        Some(int) => constant_of(operator, int, left, right),
    }
}

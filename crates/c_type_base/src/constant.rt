//! Integer constant expressions and address constants (C11 6.6).

ghost use Rattle.std.specs.Prelude.{◌≡◌, ◌%◌, ◌^◌, ◌*◌, ◌+◌, Some, None, true, false};
ghost use Rattle.c_type_base.specs.Arithmetic.{binary_value, unary_value};
ghost use Rattle.c_type_base.specs.Known as known;
ghost use Rattle.c_type_base.specs.Constants as spec;

use crate::arithmetic::{binary_value, negated, unary_value, wrap};
use crate::known::{Constancy, Fixed};
use c_ast::{BinaryOperator, IntType, UnaryOperator};

/// The constant in another type.
pub fn wrapped(t: Option<IntType>, constant: Constancy) -> Constancy
    ensures { result ≡ known.wrapped t constant }
{
    match t {
        None => Constancy::Varies,
        Some(t) => match constant {
            Constancy::Is(n) => Constancy::Is(wrap(t, n)),
            other => other,
        },
    }
}

pub fn is_zero(constant: Constancy) -> bool
    ensures { result ≡ known.is_zero constant }
{
    match constant {
        Constancy::Is(n) => n == 0,
        _ => false,
    }
}

fn computed(n: Option<u64>) -> Constancy
    ensures { result ≡ spec.computed n }
{
    match n {
        None => Constancy::DividesByZero,
        Some(n) => Constancy::Is(n),
    }
}

/// Where both operands are evaluated.
fn of_both(operator: BinaryOperator, t: IntType, a: Constancy, b: Constancy) -> Constancy
    ensures { result ≡ spec.constant_of_both (binary_value operator t) a b }
{
    match a {
        Constancy::Varies => Constancy::Varies,
        Constancy::DividesByZero => match b {
            Constancy::Varies => Constancy::Varies,
            _ => Constancy::DividesByZero,
        },
        Constancy::Is(a) => match b {
            Constancy::Varies => Constancy::Varies,
            Constancy::DividesByZero => Constancy::DividesByZero,
            Constancy::Is(b) => computed(binary_value(operator, t, a, b)),
        },
    }
}

/// Where the second is evaluated only if the first is, or is not, 0.
fn of_first(
    operator: BinaryOperator,
    t: IntType,
    zero_ends: bool,
    a: Constancy,
    b: Constancy,
) -> Constancy
    ensures { result ≡ spec.constant_of_first zero_ends (binary_value operator t) a b }
{
    match a {
        Constancy::Is(n) => match b {
            Constancy::DividesByZero => {
                if (n == 0) != zero_ends {
                    Constancy::DividesByZero
                } else if zero_ends {
                    Constancy::Is(0)
                } else {
                    Constancy::Is(1)
                }
            }
            _ => of_both(operator, t, a, b),
        },
        _ => of_both(operator, t, a, b),
    }
}

/// What an operator on two constants of a type gives.
pub fn constant_of(operator: BinaryOperator, t: IntType, a: Constancy, b: Constancy) -> Constancy
    ensures { result ≡ spec.constant_of operator t a b }
{
    match operator {
        BinaryOperator::And => of_first(operator, t, true, a, b),
        BinaryOperator::Or => of_first(operator, t, false, a, b),
        _ => of_both(operator, t, a, b),
    }
}

/// What an operator on one constant of a type gives.
pub fn constant_of_one(operator: UnaryOperator, t: IntType, a: Constancy) -> Constancy
    ensures { result ≡ spec.constant_of_one (unary_value operator t) a }
{
    match a {
        Constancy::Is(n) => computed(unary_value(operator, t, n)),
        other => other,
    }
}

/// The chosen arm alone is evaluated.
pub fn chosen(c: Constancy, a: Constancy, b: Constancy) -> Constancy
    ensures { result ≡ spec.chosen c a b }
{
    match c {
        Constancy::Varies => Constancy::Varies,
        Constancy::DividesByZero => match a {
            Constancy::Varies => Constancy::Varies,
            _ => match b {
                Constancy::Varies => Constancy::Varies,
                _ => Constancy::DividesByZero,
            },
        },
        Constancy::Is(n) => match a {
            Constancy::Varies => Constancy::Varies,
            _ => match b {
                Constancy::Varies => Constancy::Varies,
                _ => { if n == 0 { b } else { a } }
            },
        },
    }
}

/// An address that is moved by a constant number of elements, forward or back.
pub fn moved(back: bool, bytes: u64, fixed: Option<Fixed>, constant: Constancy) -> Option<Fixed>
    ensures { result ≡ spec.moved (spec.direction back) bytes fixed constant }
{
    match fixed {
        None => None,
        Some(fixed) => match constant {
            Constancy::Is(n) => {
                let by = n.wrapping_mul(bytes);
                let by = if back { negated(by) } else { by };
                Some(Fixed {
                    target: fixed.target,
                    offset: fixed.offset.wrapping_add(by),
                })
            }
            _ => None,
        },
    }
}

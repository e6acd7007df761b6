//! Conversions and arithmetic of integers, on values modulo 2^64.

ghost use Rattle.std.specs.Prelude.{◌≡◌, ◌+◌, ◌*◌, ◌-◌, ◌%◌, ◌^◌, ◌<◌, ◌&&◌, leb, if◌then◌else◌, Some, None};
ghost use Rattle.c_type_base.specs.Conversions as spec;
ghost use Rattle.c_type_base.specs.Arithmetic as number;

use c_ast::{BinaryOperator, IntType, UnaryOperator};

/// Plain char is unsigned.
pub fn is_signed(t: IntType) -> bool
    ensures { result ≡ spec.is_signed t }
{
    match t {
        IntType::SignedChar => true,
        IntType::Short => true,
        IntType::Int => true,
        IntType::Long => true,
        _ => false,
    }
}

/// Every type below int has its values in int.
pub fn promoted(t: IntType) -> IntType
    ensures { result ≡ spec.promoted t }
{
    match t {
        IntType::UInt => IntType::UInt,
        IntType::Long => IntType::Long,
        IntType::ULong => IntType::ULong,
        _ => IntType::Int,
    }
}

/// Of two promoted types: long has all values of unsigned int.
fn common(s: IntType, t: IntType) -> IntType
    ensures { result ≡ spec.common s t }
{
    match s {
        IntType::ULong => IntType::ULong,
        IntType::Long => match t {
            IntType::ULong => IntType::ULong,
            _ => IntType::Long,
        },
        IntType::UInt => match t {
            IntType::ULong => IntType::ULong,
            IntType::Long => IntType::Long,
            _ => IntType::UInt,
        },
        _ => match t {
            IntType::ULong => IntType::ULong,
            IntType::Long => IntType::Long,
            IntType::UInt => IntType::UInt,
            _ => IntType::Int,
        },
    }
}

/// The usual arithmetic conversions.
pub fn usual(s: IntType, t: IntType) -> IntType
    ensures { result ≡ spec.usual s t }
{
    common(promoted(s), promoted(t))
}

fn bits_of(t: IntType) -> u64
    ensures { result ≡ spec.bits_of t }
{
    match t {
        IntType::Char | IntType::SignedChar | IntType::UnsignedChar => 8,
        IntType::Short | IntType::UShort => 16,
        IntType::Int | IntType::UInt => 32,
        IntType::Long | IntType::ULong => 64,
    }
}

/// The value of a number in a type.
pub fn wrap(t: IntType, n: u64) -> u64
    ensures { result ≡ spec.wrap t n }
{
    match t {
        IntType::Char | IntType::UnsignedChar => n % 256,
        IntType::SignedChar => with_ones(n % 256, 128, 18446744073709551360),
        IntType::Short => with_ones(n % 65536, 32768, 18446744073709486080),
        IntType::UShort => n % 65536,
        IntType::Int => with_ones(n % 4294967296, 2147483648, 18446744069414584320),
        IntType::UInt => n % 4294967296,
        IntType::Long | IntType::ULong => n,
    }
}

/// A number from a half on with the bits above it.
fn with_ones(low: u64, half: u64, above: u64) -> u64
    requires { low + above < 18446744073709551616 }
    ensures { result ≡ (if leb half low then low + above else low) }
{
    if half <= low { low + above } else { low }
}

/// A value of the type that stands for a number below 0.
pub fn is_negative(t: IntType, n: u64) -> bool
    ensures { result ≡ number.is_negative t n }
{
    is_signed(t) && 9223372036854775808 <= n
}

/// The number with the other sign, modulo 2^64 (C11 6.5.3.3; signed arithmetic wraps, this project's own).
pub fn negated(n: u64) -> u64
    ensures { result ≡ number.negated n }
{
    n.wrapping_neg()
}

fn magnitude(t: IntType, n: u64) -> u64
    ensures { result ≡ number.magnitude t n }
{
    with_sign(is_negative(t, n), n)
}

fn with_sign(negative: bool, n: u64) -> u64
    ensures { result ≡ number.with_sign negative n }
{
    if negative { negated(n) } else { n }
}

/// What the operator `/` gives on two values of a type (C11 6.5.5): toward 0; a division by 0 has no value. The least number divided by -1
/// is itself (this project's own).
pub fn quotient(t: IntType, a: u64, b: u64) -> Option<u64>
    ensures { result ≡ number.divided (number.quotient t) a b }
{
    if b == 0 {
        return None;
    }
    let below = magnitude(t, b);
    if below == 0 {
        return None;
    }
    let negative = is_negative(t, a) != is_negative(t, b);
    Some(wrap(t, with_sign(negative, magnitude(t, a) / below)))
}

fn remainder(t: IntType, a: u64, b: u64) -> Option<u64>
    ensures { result ≡ number.divided (number.remainder t) a b }
{
    if b == 0 {
        return None;
    }
    let below = magnitude(t, b);
    if below == 0 {
        return None;
    }
    Some(wrap(t, with_sign(is_negative(t, a), magnitude(t, a) % below)))
}

fn is_below(t: IntType, a: u64, b: u64) -> bool
    ensures { result ≡ number.is_below t a b }
{
    if is_signed(t) {
        a.wrapping_add(9223372036854775808) < b.wrapping_add(9223372036854775808)
    } else {
        a < b
    }
}

fn truth(b: bool) -> u64
    ensures { result ≡ number.truth b }
{
    if b { 1 } else { 0 }
}

fn shifted_left(t: IntType, a: u64, count: u64) -> u64
    ensures { result ≡ number.shifted_left t a count }
{
    wrap(t, a << (count % bits_of(t)))
}

fn shifted_right(t: IntType, a: u64, count: u64) -> u64
    ensures { result ≡ number.shifted_right t a count }
{
    let count = count % bits_of(t);
    if is_negative(t, a) {
        18446744073709551615 - ((18446744073709551615 - a) >> count)
    } else {
        a >> count
    }
}

/// A comparison of two values of a type.
fn comparison(operator: BinaryOperator, t: IntType, a: u64, b: u64) -> Option<u64>
    ensures { result ≡ number.comparison operator t a b }
{
    match operator {
        BinaryOperator::Less => Some(truth(is_below(t, a, b))),
        BinaryOperator::Greater => Some(truth(is_below(t, b, a))),
        BinaryOperator::LessEqual => Some(truth(!is_below(t, b, a))),
        BinaryOperator::GreaterEqual => Some(truth(!is_below(t, a, b))),
        BinaryOperator::Equal => Some(truth(a == b)),
        BinaryOperator::NotEqual => Some(truth(a != b)),
        BinaryOperator::And => Some(truth(a != 0 && b != 0)),
        BinaryOperator::Or => Some(truth(a != 0 || b != 0)),
        _ => None,
    }
}

/// What an operator on two values of a type gives, on values modulo 2^64 (C11 6.5.5 to 6.5.14). A division by 0 has no value; `&&` and `||`
/// ask whether the two are 0.
pub fn binary_value(operator: BinaryOperator, t: IntType, a: u64, b: u64) -> Option<u64>
    ensures { result ≡ number.binary_value operator t a b }
{
    match operator {
        BinaryOperator::BitAnd => Some(a & b),
        BinaryOperator::BitOr => Some(a | b),
        BinaryOperator::BitXor => Some(a ^ b),
        BinaryOperator::Multiply => Some(wrap(t, a.wrapping_mul(b))),
        BinaryOperator::Add => Some(wrap(t, a.wrapping_add(b))),
        BinaryOperator::Subtract => Some(wrap(t, a.wrapping_sub(b))),
        BinaryOperator::Divide => quotient(t, a, b),
        BinaryOperator::Remainder => remainder(t, a, b),
        BinaryOperator::ShiftLeft => Some(shifted_left(t, a, b)),
        BinaryOperator::ShiftRight => Some(shifted_right(t, a, b)),
        _ => comparison(operator, t, a, b),
    }
}

/// What an operator on one value of a type gives, on values modulo 2^64 (C11 6.5.3.3). `&` and `*` have no value.
pub fn unary_value(operator: UnaryOperator, t: IntType, a: u64) -> Option<u64>
    ensures { result ≡ number.unary_value operator t a }
{
    match operator {
        UnaryOperator::Plus => Some(a),
        UnaryOperator::Minus => Some(wrap(t, negated(a))),
        UnaryOperator::Complement => Some(wrap(t, 18446744073709551615 - a)),
        UnaryOperator::Not => Some(truth(a == 0)),
        _ => None,
    }
}

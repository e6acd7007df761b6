//! Values of one type as values of another.

ghost use Rattle.std.specs.Prelude.{◌≡◌, ◌%◌, ◌+◌, ◌^◌};
ghost use Rattle.block_meaning.specs.Blocks as block;
ghost use Rattle.block_meaning.specs.Values as spec;

use block_meaning::{Pointer, Value};
use c_type_base::{Ty, wrap};

/// The null pointer: the start of the null block, which comes first.
pub fn null() -> Pointer
    ensures { result ≡ block.null }
{
    Pointer {
        block: 0,
        offset: 0,
    }
}

/// Some bytes on, modulo 2^64.
pub fn moved(p: Pointer, bytes: u64) -> Pointer
    ensures { result ≡ block.moved p bytes }
{
    Pointer {
        block: p.block,
        offset: p.offset.wrapping_add(bytes),
    }
}

/// The number that a value is, and else 0.
pub fn number_in(v: Value) -> u64
    ensures { result ≡ spec.number_in v }
{
    match v {
        Value::Number(n) => n,
        _ => 0,
    }
}

/// Where a value points to, or where the struct stands.
pub fn pointer_in(v: Value) -> Pointer
    ensures { result ≡ spec.pointer_in v }
{
    match v {
        Value::Address(p) | Value::Struct(p) => p,
        _ => null(),
    }
}

/// A value in a type, as by a conversion.
pub fn converted_to(ty: &Ty, v: Value) -> Value
    ensures { result ≡ spec.converted_to ty.now v }
{
    match ty {
        Ty::Void => Value::NoValue,
        Ty::Int(t) => Value::Number(wrap(*t, number_in(v))),
        Ty::Pointer(_) => match v {
            Value::Number(_) => Value::Address(null()),
            _ => v,
        },
        _ => v,
    }
}

/// What a function of a result's type gives that ends without `return`.
pub fn missing_result(ty: &Ty) -> Value
    ensures { result ≡ spec.missing_result ty.now }
{
    match ty {
        Ty::Int(_) => Value::Number(0),
        Ty::Pointer(_) => Value::Address(null()),
        _ => Value::NoValue,
    }
}

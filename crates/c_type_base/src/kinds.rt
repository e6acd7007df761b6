//! Kinds of types, and copies of types.

ghost use Rattle.std.specs.Prelude.{◌≡◌, ◌%◌, ◌^◌, IfOk, Some, None, option_copied};
ghost use Rattle.c_type_base.specs.Types as spec;
ghost use Rattle.c_type_base.specs.Sizes.{size, is_complete, has_members, complete_struct, bytes_of_struct};

use crate::size::{int_size, struct_size};
use crate::ty::Ty;
use crate::typed::StructInfo;
use c_ast::IntType;
use sqlite_items::{Boxed, at};
use std::alloc::{AllocError, Global};

/// An equal type in memory of its own.
pub fn copy_ty(alloc: Global, ty: &Ty) -> Result<Ty, AllocError>
    ensures { IfOk result (λ copied. copied ≡ ty.now) }
{
    match ty {
        Ty::Void => Ok(Ty::Void),
        Ty::Int(int) => Ok(Ty::Int(*int)),
        Ty::Pointer(target) => {
            let target = copy_ty(alloc, target.get())?;
            Ok(Ty::Pointer(Boxed::new(alloc, target)?))
        }
        Ty::Array(element, length) => {
            let element = copy_ty(alloc, element.get())?;
            Ok(Ty::Array(Boxed::new(alloc, element)?, *length))
        }
        Ty::Struct(number) => Ok(Ty::Struct(*number)),
    }
}

/// Whether two integer types are one.
pub fn same_int(s: IntType, t: IntType) -> bool
    ensures { result ≡ spec.same_int s t }
{
    s == t
}

/// Whether two types are one.
pub fn same_type(s: &Ty, t: &Ty) -> bool
    ensures { result ≡ spec.same_type s.now t.now }
{
    match s {
        Ty::Void => match t {
            Ty::Void => true,
            _ => false,
        },
        Ty::Int(s) => match t {
            Ty::Int(t) => same_int(*s, *t),
            _ => false,
        },
        Ty::Pointer(s) => match t {
            Ty::Pointer(t) => same_type(s.get(), t.get()),
            _ => false,
        },
        Ty::Array(s, n) => match t {
            Ty::Array(t, m) => same_type(s.get(), t.get()) && *n == *m,
            _ => false,
        },
        Ty::Struct(n) => match t {
            Ty::Struct(m) => *n == *m,
            _ => false,
        },
    }
}

/// The integer type that a type is.
pub fn int_of(ty: &Ty) -> Option<IntType>
    ensures { result ≡ spec.int_of ty.now }
{
    match ty {
        Ty::Int(int) => Some(*int),
        _ => None,
    }
}

/// What a pointer points to.
pub fn target_of(ty: &Ty) -> Option<&Ty>
    ensures { option_copied result ≡ spec.target_of ty.now }
{
    match ty {
        Ty::Pointer(target) => Some(target.get()),
        _ => None,
    }
}

/// The number of a struct.
pub fn struct_of(ty: &Ty) -> Option<u32>
    ensures { result ≡ spec.struct_of ty.now }
{
    match ty {
        Ty::Struct(number) => Some(*number),
        _ => None,
    }
}

pub fn is_void(ty: &Ty) -> bool
    ensures { result ≡ spec.is_void ty.now }
{
    match ty {
        Ty::Void => true,
        _ => false,
    }
}

pub fn is_integer(ty: &Ty) -> bool
    ensures { result ≡ spec.is_integer ty.now }
{
    match ty {
        Ty::Int(_) => true,
        _ => false,
    }
}

pub fn is_pointer(ty: &Ty) -> bool
    ensures { result ≡ spec.is_pointer ty.now }
{
    match ty {
        Ty::Pointer(_) => true,
        _ => false,
    }
}

pub fn is_array(ty: &Ty) -> bool
    ensures { result ≡ spec.is_array ty.now }
{
    match ty {
        Ty::Array(_, _) => true,
        _ => false,
    }
}

pub fn is_struct(ty: &Ty) -> bool
    ensures { result ≡ spec.is_struct ty.now }
{
    match ty {
        Ty::Struct(_) => true,
        _ => false,
    }
}

/// Integers and pointers.
pub fn is_scalar(ty: &Ty) -> bool
    ensures { result ≡ spec.is_scalar ty.now }
{
    match ty {
        Ty::Int(_) => true,
        Ty::Pointer(_) => true,
        _ => false,
    }
}

/// Whether it is one of the three char types.
pub fn is_char_type(ty: &Ty) -> bool
    ensures { result ≡ spec.is_char_type ty.now }
{
    match ty {
        Ty::Int(int) => is_char(*int),
        _ => false,
    }
}

fn is_char(int: IntType) -> bool
    ensures { result ≡ spec.is_char int }
{
    match int {
        IntType::Char | IntType::SignedChar | IntType::UnsignedChar => true,
        _ => false,
    }
}

/// Whether the size of a type is known.
pub fn is_complete(ty: &Ty, structs: &[StructInfo]) -> bool
    ensures { result ≡ is_complete structs.now ty.now }
{
    match ty {
        Ty::Void => false,
        Ty::Int(_) => true,
        Ty::Pointer(_) => true,
        Ty::Array(element, length) => 0 < *length && is_complete(element.get(), structs),
        Ty::Struct(number) => has_body(at(structs, *number as usize)),
    }
}

/// Whether a struct is there, with a body.
pub fn has_body(info: Option<&StructInfo>) -> bool
    ensures { result ≡ complete_struct (option_copied info.entry) }
{
    match info {
        Some(info) => !info.members.is_empty(),
        None => false,
    }
}

/// The bytes of any type modulo 2^64.
pub fn wrapped_size(ty: &Ty, structs: &[StructInfo]) -> u64
    ensures { result ≡ size structs.now ty.now % 2 ^ 64 }
{
    match ty {
        Ty::Void => 0,
        Ty::Int(int) => int_size(*int),
        Ty::Pointer(_) => 8,
        Ty::Array(element, length) => length.wrapping_mul(wrapped_size(element.get(), structs)),
        Ty::Struct(number) => struct_size(at(structs, *number as usize)),
    }
}

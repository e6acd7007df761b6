//! Sizes, alignments and offsets of types.

ghost use Rattle.std.specs.Prelude.{◌≡◌, min, option_copied};
ghost use Rattle.c_type_base.specs.Sizes.{int_bytes, size, align, bytes_of_struct, IsObject};
ghost use Rattle.c_type_base.specs.Layout.{LaidOut, place_of};

use crate::ty::Ty;
use crate::typed::StructInfo;
use c_ast::IntType;
use sqlite_items::at;

/// The bytes of a type that an object may have (LP64 for AArch64), by the structs that it names.
pub fn size_of(ty: &Ty, structs: &[StructInfo]) -> u64
    requires { IsObject structs.now ty.now }
    ensures { result ≡ size structs.now ty.now }
{
    capped_size(ty, structs)
}

/// The bytes of any type, or the greatest number where they are more.
pub fn capped_size(ty: &Ty, structs: &[StructInfo]) -> u64
    ensures { result ≡ min (size structs.now ty.now) u64.MAX }
{
    match ty {
        Ty::Void => 0,
        Ty::Int(int) => int_size(*int),
        Ty::Pointer(_) => 8,
        Ty::Array(element, length) => length.saturating_mul(capped_size(element.get(), structs)),
        Ty::Struct(number) => struct_size(at(structs, *number as usize)),
    }
}

/// The bytes of a struct, if it is there.
pub fn struct_size(info: Option<&StructInfo>) -> u64
    ensures { result ≡ bytes_of_struct (option_copied info.entry) }
{
    match info {
        Some(info) => info.bytes,
        None => 0,
    }
}

/// On what multiples an object of a type stands.
pub fn align_of(ty: &Ty, structs: &[StructInfo]) -> u64
    ensures { result ≡ align structs.now ty.now }
{
    match ty {
        Ty::Void => 1,
        Ty::Int(int) => int_size(*int),
        Ty::Pointer(_) => 8,
        Ty::Array(element, _) => align_of(element.get(), structs),
        Ty::Struct(number) => match at(structs, *number as usize) {
            Some(info) => info.align,
            None => 1,
        },
    }
}

/// How many bytes behind the start of a struct a member stands, both by their numbers.
pub fn member_offset(structs: &[StructInfo], which: u32, member: u32) -> u64
    requires { LaidOut structs.now }
    ensures { result ≡ place_of structs.now which member }
{
    match at(structs, which as usize) {
        Some(info) => match info.members.get(member as usize) {
            Some(member) => member.offset,
            None => 0,
        },
        None => 0,
    }
}

/// The bytes of an integer type, which are its alignment too.
pub fn int_size(ty: IntType) -> u64
    ensures { result ≡ int_bytes ty }
{
    match ty {
        IntType::Char | IntType::SignedChar | IntType::UnsignedChar => 1,
        IntType::Short | IntType::UShort => 2,
        IntType::Int | IntType::UInt => 4,
        IntType::Long | IntType::ULong => 8,
    }
}

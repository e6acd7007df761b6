//! A value in another type, in its register.

ghost use Rattle.std.specs.Prelude.{◌≡◌, true, [], ◌∷◌, OnOk};
ghost use Rattle.c_type_base.specs.Conversions.{is_signed as type_is_signed};
ghost use Rattle.gen_base.specs.Code.{Appends, plain};
ghost use Rattle.gen_base.specs.Conversions as spec;
ghost use Rattle.gen_base.specs.Integers.{with_sign};
ghost use Rattle.gen_base.specs.Registers.{paying};

use crate::items::{push_instr, push_moves};
use a64_code::{Instr, Reg};
use c_ast::IntType;
use c_type_base::{Ty, int_of, int_size};
use std::alloc::AllocError;
use sym_code::SymCode;

/// Plain char is unsigned.
pub fn is_signed(ty: IntType) -> bool
    ensures { result ≡ type_is_signed ty }
{
    match ty {
        IntType::SignedChar | IntType::Short | IntType::Int | IntType::Long => true,
        _ => false,
    }
}

// Appends: the low bits up to this one, with the sign above them.
fn push_signed(code: &mut SymCode, top: u8, reg: Reg) -> Result<(), AllocError>
    ensures { OnOk result (Appends code.old (plain (Instr.Sbfm true 0 top reg reg ∷ [])) code.new) }
{
    push_instr(
        code,
        Instr::Sbfm {
            wide: true,
            immr: 0,
            imms: top,
            rn: reg,
            rd: reg,
        },
    )
}

// Appends: the low bits up to this one, with zeros above them.
fn push_unsigned(code: &mut SymCode, top: u8, reg: Reg) -> Result<(), AllocError>
    ensures { OnOk result (Appends code.old (plain (Instr.Ubfm true 0 top reg reg ∷ [])) code.new) }
{
    push_instr(
        code,
        Instr::Ubfm {
            wide: true,
            immr: 0,
            imms: top,
            rn: reg,
            rd: reg,
        },
    )
}

/// Appends: any number as a value of a type.
pub fn push_wrap(code: &mut SymCode, ty: IntType, reg: Reg) -> Result<(), AllocError>
    ensures { OnOk result (Appends code.old (plain (spec.wrap_into ty reg)) code.new) }
{
    match ty {
        IntType::Char | IntType::UnsignedChar => push_unsigned(code, 7, reg),
        IntType::SignedChar => push_signed(code, 7, reg),
        IntType::Short => push_signed(code, 15, reg),
        IntType::UShort => push_unsigned(code, 15, reg),
        IntType::Int => push_signed(code, 31, reg),
        IntType::UInt => push_unsigned(code, 31, reg),
        IntType::Long | IntType::ULong => Ok(()),
    }
}

/// Appends, after an operation on 32 bits or less: the sign of a signed type.
pub fn push_sign(code: &mut SymCode, ty: IntType, reg: Reg) -> Result<(), AllocError>
    ensures { OnOk result (Appends code.old (plain (with_sign ty reg)) code.new) }
{
    match ty {
        IntType::SignedChar => push_signed(code, 7, reg),
        IntType::Short => push_signed(code, 15, reg),
        IntType::Int => push_signed(code, 31, reg),
        _ => Ok(()),
    }
}

// Whether each value of the second type is the same one in the first.
fn has_all(into: IntType, from: IntType) -> bool
    ensures { result ≡ spec.has_all into from }
{
    let into_bits = 8 * int_size(into);
    let from_bits = 8 * int_size(from);
    if 64 <= into_bits {
        true
    } else if is_signed(from) {
        is_signed(into) && from_bits <= into_bits
    } else {
        from_bits < into_bits || from_bits <= into_bits && !is_signed(into)
    }
}

/// Appends: an integer of a type as one of another.
pub fn push_between(
    code: &mut SymCode,
    from: IntType,
    into: IntType,
    reg: Reg,
) -> Result<(), AllocError>
    ensures { OnOk result (Appends code.old (plain (spec.between_integers from into reg)) code.new) }
{
    if has_all(into, from) {
        Ok(())
    } else {
        push_wrap(code, into, reg)
    }
}

// Appends: what may be an integer as one of a type.
fn push_into_integer(
    code: &mut SymCode,
    from: Option<IntType>,
    into: IntType,
    reg: Reg,
) -> Result<(), AllocError>
    ensures { OnOk result (Appends code.old (plain (spec.into_integer from into reg)) code.new) }
{
    match from {
        None => push_wrap(code, into, reg),
        Some(from) => push_between(code, from, into, reg),
    }
}

// Appends: what may be an integer as a pointer, which only the null constant is.
fn push_into_pointer(code: &mut SymCode, from: Option<IntType>, reg: Reg) -> Result<(), AllocError>
    ensures { OnOk result (Appends code.old (plain (spec.into_pointer from reg)) code.new) }
{
    match from {
        None => Ok(()),
        Some(_) => push_moves(code, reg, 0),
    }
}

/// Appends: a value of the first type as one of the second.
pub fn push_convert(code: &mut SymCode, from: &Ty, into: &Ty, reg: Reg) -> Result<(), AllocError>
    ensures { OnOk result (Appends code.old (plain (spec.convert from.now into.now reg)) code.new) }
{
    match into {
        Ty::Int(into) => push_into_integer(code, int_of(from), *into, reg),
        Ty::Pointer(_) => push_into_pointer(code, int_of(from), reg),
        _ => Ok(()),
    }
}

/// Appends the same, with one instruction at least.
pub fn push_paying_convert(
    code: &mut SymCode,
    from: &Ty,
    into: &Ty,
    reg: Reg,
) -> Result<(), AllocError>
    ensures { OnOk result (Appends code.old (plain (paying (spec.convert from.now into.now reg))) code.new) }
{
    let before = code.items.len();
    push_convert(code, from, into, reg)?;
    if code.items.len() == before {
        push_instr(code, Instr::Nop)?;
    }
    Ok(())
}

//! Loads and stores of scalars, by their types.

ghost use Rattle.std.specs.Prelude.{◌≡◌, ◌/◌, ◌<◌, ◌≤◌, [], ◌∷◌, OnOk, IfSome, option_copied};
ghost use Rattle.a64_laws.specs.Forms.{load_instr, load_size, store_instr};
ghost use Rattle.gen_base.specs.Code.{Appends, plain};
ghost use Rattle.gen_base.specs.Accesses as spec;

use crate::items::push_instr;
use crate::registers::STACK_POINTER;
use a64_code::{Instr, Reg};
use c_ast::IntType;
use c_type_base::{Ty, is_scalar};
use frame_layout::Slot;
use slot_safety::Kind;
use std::alloc::AllocError;
use sym_code::SymCode;

// An integer type whose values are loaded and stored as those of a type.
fn loaded_as(ty: &Ty) -> IntType
    ensures { spec.load_of_int result ≡ spec.load_of ty.now }
{
    match ty {
        Ty::Int(int) => *int,
        _ => IntType::ULong,
    }
}

// How many bytes they have.
fn size_of(ty: IntType) -> u64
    ensures is { result ≡ load_size (spec.load_of_int ty) }
    ensures most { result ≤ 8 }
{
    match ty {
        IntType::Char | IntType::SignedChar | IntType::UnsignedChar => 1,
        IntType::Short | IntType::UShort => 2,
        IntType::Int | IntType::UInt => 4,
        IntType::Long | IntType::ULong => 8,
    }
}

// So many bytes in units of that size.
fn units(ty: IntType, bytes: u64) -> u16
    requires { bytes < 32768 }
    ensures { result ≡ bytes / load_size (spec.load_of_int ty) }
{
    match ty {
        IntType::Char | IntType::SignedChar | IntType::UnsignedChar => bytes as u16,
        IntType::Short | IntType::UShort => (bytes / 2) as u16,
        IntType::Int | IntType::UInt => (bytes / 4) as u16,
        IntType::Long | IntType::ULong => (bytes / 8) as u16,
    }
}

// The load of an integer, with an offset in units of its size.
fn load(ty: IntType, imm12: u16, rn: Reg, rt: Reg) -> Instr
    ensures { result ≡ load_instr (spec.load_of_int ty) imm12 rn rt }
{
    match ty {
        IntType::Char | IntType::UnsignedChar => Instr::Ldrb { imm12, rn, rt },
        IntType::SignedChar => Instr::Ldrsb { imm12, rn, rt },
        IntType::Short => Instr::Ldrsh { imm12, rn, rt },
        IntType::UShort => Instr::Ldrh { imm12, rn, rt },
        IntType::Int => Instr::Ldrsw { imm12, rn, rt },
        IntType::UInt => Instr::Ldr {
            wide: false,
            imm12,
            rn,
            rt,
        },
        IntType::Long | IntType::ULong => Instr::Ldr {
            wide: true,
            imm12,
            rn,
            rt,
        },
    }
}

// The store of an integer, likewise.
fn store(ty: IntType, imm12: u16, rn: Reg, rt: Reg) -> Instr
    ensures { result ≡ store_instr (spec.store_of_load (spec.load_of_int ty)) imm12 rn rt }
{
    match ty {
        IntType::Char | IntType::SignedChar | IntType::UnsignedChar => {
            Instr::Strb { imm12, rn, rt }
        }
        IntType::Short | IntType::UShort => Instr::Strh { imm12, rn, rt },
        IntType::Int | IntType::UInt => Instr::Str {
            wide: false,
            imm12,
            rn,
            rt,
        },
        IntType::Long | IntType::ULong => Instr::Str {
            wide: true,
            imm12,
            rn,
            rt,
        },
    }
}

/// Appends: a scalar of a type at the address in a register comes into a register.
pub fn push_load(code: &mut SymCode, ty: &Ty, place: Reg, reg: Reg) -> Result<(), AllocError>
    ensures { OnOk result (Appends code.old (plain (spec.load_scalar ty.now (spec.Behind place) reg ∷ [])) code.new) }
{
    push_instr(code, load(loaded_as(ty), 0, place, reg))
}

/// Appends: a scalar of a type so many bytes above SP comes into a register.
pub fn push_load_local(code: &mut SymCode, ty: &Ty, start: u64, reg: Reg) -> Result<(), AllocError>
    requires { start < 32768 }
    ensures { OnOk result (Appends code.old (plain (spec.load_scalar ty.now (spec.OnStack start) reg ∷ [])) code.new) }
{
    let int = loaded_as(ty);
    push_instr(code, load(int, units(int, start), STACK_POINTER, reg))
}

/// Appends: what a register has is stored as a scalar of a type at the address in a register.
pub fn push_store(code: &mut SymCode, ty: &Ty, place: Reg, reg: Reg) -> Result<(), AllocError>
    ensures { OnOk result (Appends code.old (plain (spec.store_scalar ty.now (spec.Behind place) reg ∷ [])) code.new) }
{
    push_instr(code, store(loaded_as(ty), 0, place, reg))
}

/// Appends: what a register has is stored as a scalar of a type so many bytes above SP.
pub fn push_store_local(code: &mut SymCode, ty: &Ty, start: u64, reg: Reg) -> Result<(), AllocError>
    requires { start < 32768 }
    ensures { OnOk result (Appends code.old (plain (spec.store_scalar ty.now (spec.OnStack start) reg ∷ [])) code.new) }
{
    let int = loaded_as(ty);
    push_instr(code, store(int, units(int, start), STACK_POINTER, reg))
}

// The start of a slot, if it is safe and loads and stores of a scalar reach it from SP.
fn reached_slot(ty: &Ty, slot: &Slot) -> Option<u64>
    ensures is { result ≡ spec.reached_slot ty.now slot.now }
    ensures near { IfSome result (λ start. start < 32768) }
{
    match slot.kind {
        Kind::Tagged => None,
        Kind::Safe => {
            if slot.start < 4096 * size_of(loaded_as(ty)) {
                Some(slot.start)
            } else {
                None
            }
        }
    }
}

/// The start of a local's slot, if it is safe and loads and stores of the local, a scalar of this type, reach it from SP.
pub fn reached(ty: &Ty, slot: Option<&Slot>) -> Option<u64>
    ensures is { result ≡ spec.reached ty.now (option_copied slot.entry) }
    ensures near { IfSome result (λ start. start < 32768) }
{
    match slot {
        None => None,
        Some(slot) => {
            if is_scalar(ty) {
                reached_slot(ty, slot)
            } else {
                None
            }
        }
    }
}

//! Operators on integers of one type: the first operand is in X16, and the second and the result are in one register.

ghost use Rattle.std.specs.Prelude.{◌≡◌, true, [], ◌∷◌, OnOk, if◌then◌else◌};
ghost use Rattle.a64_laws.specs.Forms.{Sub, ShiftRight, ShiftRightSigned, operation_instr, zero_register};
ghost use Rattle.a64_laws.specs.Sequences.{divide_instr};
ghost use Rattle.c_type_base.specs.Conversions.{is_signed as type_is_signed};
ghost use Rattle.gen_base.specs.Code.{Appends, in_turn, plain};
ghost use Rattle.gen_base.specs.Integers as spec;
ghost use Rattle.gen_base.specs.Registers.{left};

use crate::comparisons::{push_against_zero, push_compare};
use crate::conversions::{is_signed, push_sign};
use crate::items::{next_label, push, push_instr};
use crate::registers::{LEFT, SCRATCH, ZERO};
use a64_code::{Instr, Reg};
use c_ast::{BinaryOperator, IntType, UnaryOperator};
use std::alloc::AllocError;
use sym_code::{SymCode, SymItem};

// Whether values of a type have 64 bits.
fn is_wide(ty: IntType) -> bool
    ensures { result ≡ spec.is_wide ty }
{
    match ty {
        IntType::Long | IntType::ULong => true,
        _ => false,
    }
}

// Appends an operation and, where it leaves zeros above 32 bits, the sign of a signed type.
fn push_operation(code: &mut SymCode, instr: Instr, ty: IntType, reg: Reg) -> Result<(), AllocError>
    ensures { OnOk result (Appends code.old (plain (instr ∷ spec.with_sign ty reg)) code.new) }
{
    push_instr(code, instr)?;
    push_sign(code, ty, reg)
}

// Appends: the end of the run where the register is 0.
fn push_unless_zero(code: &mut SymCode, reg: Reg) -> Result<(), AllocError>
    ensures { OnOk result (Appends code.old (spec.unless_zero reg) code.new) }
{
    let label = next_label(code)?;
    push(code, SymItem::JumpIfNotZero(reg, label))?;
    push_instr(code, Instr::Svc { imm16: 4 })?;
    push(code, SymItem::Label(label))
}

// The quotient of X16 and a register into another one.
fn divide(ty: IntType, rm: Reg, rd: Reg) -> Instr
    ensures { result ≡ divide_instr (spec.sign_of ty) (spec.is_wide ty) rm left rd }
{
    let wide = is_wide(ty);
    if is_signed(ty) {
        Instr::Sdiv {
            wide,
            rm,
            rn: LEFT,
            rd,
        }
    } else {
        Instr::Udiv {
            wide,
            rm,
            rn: LEFT,
            rd,
        }
    }
}

// Appends a division, which ends the run where the second operand is 0.
fn push_division(code: &mut SymCode, ty: IntType, reg: Reg) -> Result<(), AllocError>
    ensures { OnOk result (Appends code.old (in_turn (spec.unless_zero reg ∷ plain (spec.division ty reg) ∷ [])) code.new) }
{
    push_unless_zero(code, reg)?;
    push_operation(code, divide(ty, reg, reg), ty, reg)
}

// Appends the same with the remainder.
fn push_remainder(code: &mut SymCode, ty: IntType, reg: Reg) -> Result<(), AllocError>
    ensures { OnOk result (Appends code.old (in_turn (spec.unless_zero reg ∷ plain (spec.remaining ty reg) ∷ [])) code.new) }
{
    push_unless_zero(code, reg)?;
    push_instr(code, divide(ty, reg, SCRATCH))?;
    let wide = is_wide(ty);
    let rest = Instr::Msub {
        wide,
        rm: reg,
        ra: LEFT,
        rn: SCRATCH,
        rd: reg,
    };
    push_operation(code, rest, ty, reg)
}

// The shift to the right of X16.
fn shift_right(ty: IntType, reg: Reg) -> Instr
    ensures { result ≡ operation_instr (if type_is_signed ty then ShiftRightSigned else ShiftRight) (spec.is_wide ty) reg left reg }
{
    let wide = is_wide(ty);
    if is_signed(ty) {
        Instr::Asrv {
            wide,
            rm: reg,
            rn: LEFT,
            rd: reg,
        }
    } else {
        Instr::Lsrv {
            wide,
            rm: reg,
            rn: LEFT,
            rd: reg,
        }
    }
}

/// Appends an operator on two integers.
pub fn push_on_integers(
    code: &mut SymCode,
    operator: BinaryOperator,
    ty: IntType,
    reg: Reg,
) -> Result<(), AllocError>
    ensures { OnOk result (Appends code.old (spec.on_integers operator ty reg) code.new) }
{
    match operator {
        BinaryOperator::BitAnd => push_instr(
            code,
            Instr::AndReg {
                wide: true,
                rm: reg,
                rn: LEFT,
                rd: reg,
            },
        ),
        BinaryOperator::BitOr => push_instr(
            code,
            Instr::OrrReg {
                wide: true,
                rm: reg,
                rn: LEFT,
                rd: reg,
            },
        ),
        BinaryOperator::BitXor => push_instr(
            code,
            Instr::EorReg {
                wide: true,
                rm: reg,
                rn: LEFT,
                rd: reg,
            },
        ),
        BinaryOperator::Multiply => {
            let product = Instr::Madd {
                wide: is_wide(ty),
                rm: reg,
                ra: ZERO,
                rn: LEFT,
                rd: reg,
            };
            push_operation(code, product, ty, reg)
        }
        BinaryOperator::Add => {
            let sum = Instr::AddReg {
                wide: is_wide(ty),
                rm: reg,
                rn: LEFT,
                rd: reg,
            };
            push_operation(code, sum, ty, reg)
        }
        BinaryOperator::Subtract => {
            let difference = Instr::SubReg {
                wide: is_wide(ty),
                rm: reg,
                rn: LEFT,
                rd: reg,
            };
            push_operation(code, difference, ty, reg)
        }
        BinaryOperator::Divide => push_division(code, ty, reg),
        BinaryOperator::Remainder => push_remainder(code, ty, reg),
        BinaryOperator::ShiftLeft => {
            let shift = Instr::Lslv {
                wide: is_wide(ty),
                rm: reg,
                rn: LEFT,
                rd: reg,
            };
            push_operation(code, shift, ty, reg)
        }
        BinaryOperator::ShiftRight => push_operation(code, shift_right(ty, reg), ty, reg),
        BinaryOperator::And | BinaryOperator::Or => Ok(()),
        _ => push_compare(code, operator, is_signed(ty), reg),
    }
}

// Appends: the number 0 less a register.
fn push_negated(code: &mut SymCode, wide: bool, reg: Reg) -> Result<(), AllocError>
    ensures { OnOk result (Appends code.old (plain (operation_instr Sub wide reg zero_register reg ∷ [])) code.new) }
{
    push_instr(
        code,
        Instr::SubReg {
            wide,
            rm: reg,
            rn: ZERO,
            rd: reg,
        },
    )
}

// Appends the bits that a register has not, of an integer of a type.
fn push_complement(code: &mut SymCode, ty: IntType, reg: Reg) -> Result<(), AllocError>
    ensures { OnOk result (Appends code.old (plain (spec.on_integer UnaryOperator.Complement ty reg)) code.new) }
{
    let wide = is_wide(ty);
    push_negated(code, wide, reg)?;
    let less = Instr::SubImm {
        wide,
        sh: 0,
        imm12: 1,
        rn: reg,
        rd: reg,
    };
    push_operation(code, less, ty, reg)
}

/// Appends an operator on one integer of a promoted type.
pub fn push_on_integer(
    code: &mut SymCode,
    operator: UnaryOperator,
    ty: IntType,
    reg: Reg,
) -> Result<(), AllocError>
    ensures { OnOk result (Appends code.old (plain (spec.on_integer operator ty reg)) code.new) }
{
    match operator {
        UnaryOperator::Minus => {
            push_negated(code, is_wide(ty), reg)?;
            push_sign(code, ty, reg)
        }
        UnaryOperator::Complement => push_complement(code, ty, reg),
        UnaryOperator::Not => push_against_zero(code, 1, reg),
        _ => push_instr(code, Instr::Nop),
    }
}

//! Operators by the types of their operands.

ghost use Rattle.std.specs.Prelude.{◌≡◌, true, [], ◌∷◌, OnOk, if◌then◌else◌};
ghost use Rattle.a64_laws.specs.Forms.{Add, Sub, operation_instr};
ghost use Rattle.block_meaning.specs.Operators as meaning;
ghost use Rattle.c_type_base.specs.Types.{target_of as target};
ghost use Rattle.gen_base.specs.Code.{Appends, in_turn, plain};
ghost use Rattle.gen_base.specs.Conversions.{between_integers};
ghost use Rattle.gen_base.specs.Integers.{on_integers};
ghost use Rattle.gen_base.specs.Operators as spec;
ghost use Rattle.gen_base.specs.Registers.{left as first};

use crate::conversions::{push_between, push_wrap};
use crate::integers::push_on_integers;
use crate::items::{push_instr, push_moves};
use crate::pointers::{push_advance, push_on_two_pointers, push_pointer_and_number};
use crate::registers::LEFT;
use crate::sizes::divisor_of;
use a64_code::{Instr, Reg};
use c_ast::{AssignOperator, BinaryOperator, IntType, Step};
use c_type_base::{Ty, Typed, int_of, promoted, target_of, wrapped_size};
use std::alloc::AllocError;
use sym_code::SymCode;

/// The integer type that a type is, or int.
pub fn int_in(ty: &Ty) -> IntType
    ensures { result ≡ meaning.int_in ty.now }
{
    match int_of(ty) {
        None => IntType::Int,
        Some(int) => int,
    }
}

/// The bytes of a type, as a register has them.
pub fn bytes_of(unit: &Typed, ty: &Ty) -> u64
    ensures { result ≡ spec.wrapped_size unit.now.structs ty.now }
{
    wrapped_size(ty, unit.structs.as_slice())
}

/// Appends an operator on two operands: the first in X16, the second and the result in a register.
pub fn push_operated(
    code: &mut SymCode,
    unit: &Typed,
    operator: BinaryOperator,
    left: &Ty,
    right: &Ty,
    reg: Reg,
) -> Result<(), AllocError>
    ensures { OnOk result (Appends code.old (spec.operated unit.now.structs operator left.now right.now reg) code.new) }
{
    match target_of(left) {
        None => match target_of(right) {
            None => push_on_integers(code, operator, int_in(left), reg),
            Some(target) => push_advance(code, bytes_of(unit, target), reg, LEFT, reg),
        },
        Some(target) => match target_of(right) {
            None => push_pointer_and_number(code, operator, bytes_of(unit, target), reg),
            Some(_) => push_on_two_pointers(code, operator, divisor_of(unit, target), reg),
        },
    }
}

/// Appends: the element of a number behind a pointer, in either order.
pub fn push_element(code: &mut SymCode, bytes: u64, left: &Ty, reg: Reg) -> Result<(), AllocError>
    ensures { OnOk result (Appends code.old (plain (spec.element bytes (target left.now) reg)) code.new) }
{
    match target_of(left) {
        Some(_) => push_advance(code, bytes, LEFT, reg, reg),
        None => push_advance(code, bytes, reg, LEFT, reg),
    }
}

// The operator of a compound assignment.
fn binary_of(operator: AssignOperator) -> BinaryOperator
    ensures { result ≡ meaning.binary_of operator }
{
    match operator {
        AssignOperator::Add => BinaryOperator::Add,
        AssignOperator::Subtract => BinaryOperator::Subtract,
        AssignOperator::Multiply => BinaryOperator::Multiply,
        AssignOperator::Divide => BinaryOperator::Divide,
        AssignOperator::Remainder => BinaryOperator::Remainder,
        AssignOperator::ShiftLeft => BinaryOperator::ShiftLeft,
        AssignOperator::ShiftRight => BinaryOperator::ShiftRight,
        AssignOperator::BitAnd => BinaryOperator::BitAnd,
        AssignOperator::BitXor => BinaryOperator::BitXor,
        AssignOperator::BitOr => BinaryOperator::BitOr,
    }
}

// The type in which an operator with `=` computes.
fn computing_type(operator: BinaryOperator, left: IntType, right: IntType) -> IntType
    ensures { result ≡ meaning.computing_type operator left right }
{
    match operator {
        BinaryOperator::ShiftLeft | BinaryOperator::ShiftRight => promoted(left),
        _ => right,
    }
}

// Appends a compound assignment's operator on two integers.
fn push_numbers_combined(
    code: &mut SymCode,
    operator: BinaryOperator,
    left: IntType,
    right: IntType,
    reg: Reg,
) -> Result<(), AllocError>
    ensures { let by = meaning.computing_type operator left right in
        OnOk result (Appends code.old (in_turn (plain (between_integers left by first)
        ∷ on_integers operator by reg ∷ plain (between_integers by left reg) ∷ [])) code.new) }
{
    let by = computing_type(operator, left, right);
    push_between(code, left, by, LEFT)?;
    push_on_integers(code, operator, by, reg)?;
    push_between(code, by, left, reg)
}

/// Appends a compound assignment's operator: what stood on the left is in X16, the right side and the result are in a register.
pub fn push_combined(
    code: &mut SymCode,
    unit: &Typed,
    operator: AssignOperator,
    left: &Ty,
    right: &Ty,
    reg: Reg,
) -> Result<(), AllocError>
    ensures { OnOk result (Appends code.old (spec.combined unit.now.structs operator left.now right.now reg) code.new) }
{
    let operator = binary_of(operator);
    match target_of(left) {
        None => push_numbers_combined(code, operator, int_in(left), int_in(right), reg),
        Some(target) => { push_pointer_and_number(code, operator, bytes_of(unit, target), reg) }
    }
}

/// Whether a step is `++`.
fn is_increment(step: Step) -> bool
    ensures { result ≡ meaning.is_increment step }
{
    match step {
        Step::PreIncrement | Step::PostIncrement => true,
        _ => false,
    }
}

// One more or one less than a register, into X16.
fn number_stepped(step: Step, reg: Reg) -> Instr
    ensures { result ≡ spec.number_stepped step reg }
{
    if is_increment(step) {
        Instr::AddImm {
            wide: true,
            sh: 0,
            imm12: 1,
            rn: reg,
            rd: LEFT,
        }
    } else {
        Instr::SubImm {
            wide: true,
            sh: 0,
            imm12: 1,
            rn: reg,
            rd: LEFT,
        }
    }
}

// X16 more or less than a register, into X16.
fn pointer_stepped(step: Step, reg: Reg) -> Instr
    ensures { result ≡ operation_instr (if meaning.is_increment step then Add else Sub) true first reg first }
{
    if is_increment(step) {
        Instr::AddReg {
            wide: true,
            rm: LEFT,
            rn: reg,
            rd: LEFT,
        }
    } else {
        Instr::SubReg {
            wide: true,
            rm: LEFT,
            rn: reg,
            rd: LEFT,
        }
    }
}

/// Appends `++` or `--`: the value of a register, one more or one less, into X16.
pub fn push_stepped(
    code: &mut SymCode,
    unit: &Typed,
    step: Step,
    ty: &Ty,
    reg: Reg,
) -> Result<(), AllocError>
    ensures { OnOk result (Appends code.old (plain (spec.stepped unit.now.structs step ty.now reg)) code.new) }
{
    match target_of(ty) {
        None => {
            push_instr(code, number_stepped(step, reg))?;
            push_wrap(code, int_in(ty), LEFT)
        }
        Some(target) => {
            push_moves(code, LEFT, bytes_of(unit, target))?;
            push_instr(code, pointer_stepped(step, reg))
        }
    }
}

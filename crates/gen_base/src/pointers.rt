//! Operators on pointers: the first operand is in X16, and the second and the result are in one register.

ghost use Rattle.std.specs.Prelude.{true, [], ◌∷◌, OnOk};
ghost use Rattle.a64_laws.specs.Forms.{Sub, operation_instr};
ghost use Rattle.a64_laws.specs.Relations.{Less, AtMost};
ghost use Rattle.gen_base.specs.Code.{Appends, plain};
ghost use Rattle.gen_base.specs.Pointers as spec;
ghost use Rattle.gen_base.specs.Registers.{left};

use crate::comparisons::{push_against_zero, push_compare};
use crate::items::{push_instr, push_moves};
use crate::registers::{LEFT, SCRATCH};
use a64_code::{Instr, Reg};
use c_ast::BinaryOperator;
use std::alloc::AllocError;
use sym_code::SymCode;

/// Appends: so many objects of a size on from a pointer, with the pointer in one register and the count in another.
pub fn push_advance(
    code: &mut SymCode,
    bytes: u64,
    pointer: Reg,
    count: Reg,
    into: Reg,
) -> Result<(), AllocError>
    ensures { OnOk result (Appends code.old (plain (spec.advance bytes pointer count into)) code.new) }
{
    push_moves(code, SCRATCH, bytes)?;
    push_instr(
        code,
        Instr::Madd {
            wide: true,
            rm: SCRATCH,
            ra: pointer,
            rn: count,
            rd: into,
        },
    )
}

// Appends: so many objects of a size back from the pointer in X16, with the count in a register.
fn push_retreat(code: &mut SymCode, bytes: u64, reg: Reg) -> Result<(), AllocError>
    ensures { OnOk result (Appends code.old (plain (spec.retreat bytes left reg reg)) code.new) }
{
    push_moves(code, SCRATCH, bytes)?;
    push_instr(
        code,
        Instr::Msub {
            wide: true,
            rm: SCRATCH,
            ra: LEFT,
            rn: reg,
            rd: reg,
        },
    )
}

/// Appends an operator on a pointer with a number behind it.
pub fn push_pointer_and_number(
    code: &mut SymCode,
    operator: BinaryOperator,
    bytes: u64,
    reg: Reg,
) -> Result<(), AllocError>
    ensures { OnOk result (Appends code.old (plain (spec.pointer_and_number operator bytes reg)) code.new) }
{
    match operator {
        BinaryOperator::Subtract => push_retreat(code, bytes, reg),
        _ => push_advance(code, bytes, LEFT, reg, reg),
    }
}

// Appends: a register less another one.
fn push_less(code: &mut SymCode, first: Reg, second: Reg, into: Reg) -> Result<(), AllocError>
    ensures { OnOk result (Appends code.old (plain (operation_instr Sub true second first into ∷ [])) code.new) }
{
    push_instr(
        code,
        Instr::SubReg {
            wide: true,
            rm: second,
            rn: first,
            rd: into,
        },
    )
}

// Appends: how many objects of a size lie between two pointers.
fn push_objects_apart(code: &mut SymCode, bytes: u64, reg: Reg) -> Result<(), AllocError>
    ensures { OnOk result (Appends code.old (plain (spec.objects_apart bytes reg)) code.new) }
{
    push_less(code, LEFT, reg, reg)?;
    push_moves(code, SCRATCH, bytes)?;
    push_instr(
        code,
        Instr::Sdiv {
            wide: true,
            rm: SCRATCH,
            rn: reg,
            rd: reg,
        },
    )
}

// Appends: whether one pointer is less than another one.
fn push_is_less(code: &mut SymCode, first: Reg, second: Reg, reg: Reg) -> Result<(), AllocError>
    ensures { OnOk result (Appends code.old (plain (spec.by_difference first second Less reg)) code.new) }
{
    push_less(code, first, second, reg)?;
    push_against_zero(code, 10, reg)
}

// Appends: whether one pointer is another one or less.
fn push_is_at_most(code: &mut SymCode, first: Reg, second: Reg, reg: Reg) -> Result<(), AllocError>
    ensures { OnOk result (Appends code.old (plain (spec.by_difference first second AtMost reg)) code.new) }
{
    push_less(code, first, second, reg)?;
    push_against_zero(code, 12, reg)
}

/// Appends an operator on two pointers to objects of a size.
pub fn push_on_two_pointers(
    code: &mut SymCode,
    operator: BinaryOperator,
    bytes: u64,
    reg: Reg,
) -> Result<(), AllocError>
    ensures { OnOk result (Appends code.old (plain (spec.on_two_pointers operator bytes reg)) code.new) }
{
    match operator {
        BinaryOperator::Subtract => push_objects_apart(code, bytes, reg),
        BinaryOperator::Less => push_is_less(code, LEFT, reg, reg),
        BinaryOperator::LessEqual => push_is_at_most(code, LEFT, reg, reg),
        BinaryOperator::Greater => push_is_less(code, reg, LEFT, reg),
        BinaryOperator::GreaterEqual => push_is_at_most(code, reg, LEFT, reg),
        _ => push_compare(code, operator, false, reg),
    }
}

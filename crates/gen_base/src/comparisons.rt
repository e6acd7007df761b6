//! Comparisons: the first operand is in X16, and the second and the result are in one register.

ghost use Rattle.std.specs.Prelude.{◌≡◌, true, [], ◌∷◌, OnOk};
ghost use Rattle.a64_laws.specs.Forms.{zero_register};
ghost use Rattle.a64_laws.specs.Relations.{code_of};
ghost use Rattle.a64_laws.specs.Sequences.{WithNumber, compare_instr, contrary};
ghost use Rattle.gen_base.specs.Code.{Appends, plain};
ghost use Rattle.gen_base.specs.Integers as spec;

use crate::items::push_instr;
use crate::registers::{LEFT, ZERO};
use a64_code::{Instr, Reg};
use c_ast::BinaryOperator;
use std::alloc::AllocError;
use sym_code::SymCode;

// The condition of an instruction that makes 0 of what is true: that the comparison does not hold.
fn condition(operator: BinaryOperator, signed: bool) -> u8
    ensures { result ≡ code_of (contrary (spec.relation operator signed)) }
{
    match operator {
        BinaryOperator::Less => { if signed { 10 } else { 2 } }
        BinaryOperator::Greater => { if signed { 13 } else { 9 } }
        BinaryOperator::LessEqual => { if signed { 12 } else { 8 } }
        BinaryOperator::GreaterEqual => { if signed { 11 } else { 3 } }
        BinaryOperator::NotEqual => 0,
        _ => 1,
    }
}

// Appends: 0 into a register where a condition holds, else 1.
fn push_truth(code: &mut SymCode, condition: u8, reg: Reg) -> Result<(), AllocError>
    ensures { OnOk result (Appends code.old (plain (Instr.Csinc true zero_register condition zero_register reg ∷ [])) code.new) }
{
    push_instr(
        code,
        Instr::Csinc {
            wide: true,
            rm: ZERO,
            cond: condition,
            rn: ZERO,
            rd: reg,
        },
    )
}

/// Appends a comparison.
pub fn push_compare(
    code: &mut SymCode,
    operator: BinaryOperator,
    signed: bool,
    reg: Reg,
) -> Result<(), AllocError>
    ensures { OnOk result (Appends code.old (plain (spec.compare (spec.relation operator signed) reg)) code.new) }
{
    push_instr(
        code,
        Instr::SubsReg {
            wide: true,
            rm: reg,
            rn: LEFT,
            rd: ZERO,
        },
    )?;
    push_truth(code, condition(operator, signed), reg)
}

/// Appends the comparison of a register with 0, whose condition is given as that where it does not hold.
pub fn push_against_zero(code: &mut SymCode, condition: u8, reg: Reg) -> Result<(), AllocError>
    ensures { OnOk result (Appends code.old (plain (compare_instr true (WithNumber 0) reg
        ∷ Instr.Csinc true zero_register condition zero_register reg ∷ [])) code.new) }
{
    push_instr(
        code,
        Instr::SubsImm {
            wide: true,
            sh: 0,
            imm12: 0,
            rn: reg,
            rd: ZERO,
        },
    )?;
    push_truth(code, condition, reg)
}

/// Appends: 1 where a register is not zero, and else 0.
pub fn push_is_other(code: &mut SymCode, reg: Reg) -> Result<(), AllocError>
    ensures { OnOk result (Appends code.old (plain (spec.is_other reg)) code.new) }
{
    push_against_zero(code, 0, reg)
}

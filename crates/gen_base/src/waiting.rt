//! Values that wait for others in the temps of a frame.

ghost use Rattle.std.specs.Prelude.{◌≤◌, true, [], ◌∷◌, OnOk};
ghost use Rattle.tag_plan.specs.Lists.{offset_from};
ghost use Rattle.gen_base.specs.Code.{Appends, plain};
ghost use Rattle.gen_base.specs.Waiting as spec;

use crate::items::push_instr;
use crate::registers::{LEFT, STACK_POINTER};
use a64_code::{Instr, Reg};
use std::alloc::AllocError;
use sym_code::SymCode;

// Appends: so many bytes on from a register or SP, into a register.
fn push_offset(code: &mut SymCode, from: Reg, bytes: u64, into: Reg) -> Result<(), AllocError>
    requires { bytes ≤ 262144 }
    ensures { OnOk result (Appends code.old (plain (offset_from from bytes into)) code.new) }
{
    if bytes < 4096 {
        return push_instr(
            code,
            Instr::AddImm {
                wide: true,
                sh: 0,
                imm12: bytes as u16,
                rn: from,
                rd: into,
            },
        );
    }
    push_instr(
        code,
        Instr::AddImm {
            wide: true,
            sh: 1,
            imm12: (bytes / 4096) as u16,
            rn: from,
            rd: into,
        },
    )?;
    push_instr(
        code,
        Instr::AddImm {
            wide: true,
            sh: 0,
            imm12: (bytes % 4096) as u16,
            rn: into,
            rd: into,
        },
    )
}

/// Appends: a register is kept in a temp.
pub fn push_keep(code: &mut SymCode, temp: u64, reg: Reg) -> Result<(), AllocError>
    requires { temp ≤ 32764 }
    ensures { OnOk result (Appends code.old (plain (spec.keep temp reg)) code.new) }
{
    if 3 + temp < 4096 {
        return push_store_word(code, (3 + temp) as u16, STACK_POINTER, reg);
    }
    push_offset(code, STACK_POINTER, 24 + 8 * temp, LEFT)?;
    push_store_word(code, 0, LEFT, reg)
}

/// Appends: what a temp keeps comes into a register.
pub fn push_fetch(code: &mut SymCode, temp: u64, reg: Reg) -> Result<(), AllocError>
    requires { temp ≤ 32764 }
    ensures { OnOk result (Appends code.old (plain (spec.fetch temp reg)) code.new) }
{
    if 3 + temp < 4096 {
        return push_load_word(code, (3 + temp) as u16, STACK_POINTER, reg);
    }
    push_offset(code, STACK_POINTER, 24 + 8 * temp, reg)?;
    push_load_word(code, 0, reg, reg)
}

// Appends: a register is stored so many words of 8 bytes above a place.
fn push_store_word(code: &mut SymCode, words: u16, at: Reg, reg: Reg) -> Result<(), AllocError>
    ensures { OnOk result (Appends code.old (plain (Instr.Str true words at reg ∷ [])) code.new) }
{
    push_instr(
        code,
        Instr::Str {
            wide: true,
            imm12: words,
            rn: at,
            rt: reg,
        },
    )
}

// Appends: what is there comes into a register.
fn push_load_word(code: &mut SymCode, words: u16, at: Reg, reg: Reg) -> Result<(), AllocError>
    ensures { OnOk result (Appends code.old (plain (Instr.Ldr true words at reg ∷ [])) code.new) }
{
    push_instr(
        code,
        Instr::Ldr {
            wide: true,
            imm12: words,
            rn: at,
            rt: reg,
        },
    )
}

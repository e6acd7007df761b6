//! Registers, and moves between them.

ghost use Rattle.std.specs.Prelude.{◌≡◌, [], ◌∷◌, OnOk};
ghost use Rattle.a64_laws.specs.Forms.{zero_register, stack_pointer};
ghost use Rattle.gen_base.specs.Code.{Appends, plain};
ghost use Rattle.gen_base.specs.Registers as spec;

use crate::items::push_instr;
use a64_code::{Instr, Reg};
use std::alloc::AllocError;
use sym_code::SymCode;

/// The first operand.
pub const LEFT: Reg = Reg(16);

/// A place in memory, a size, or a quotient.
pub const SCRATCH: Reg = Reg(17);

/// Where the value of a call comes back.
pub const RETURNED: Reg = Reg(0);

/// The stack pointer, in a field that takes the number 31 for it.
pub const STACK_POINTER: Reg = Reg(31);

/// The zero register, in a field that takes the number 31 for it.
pub const ZERO: Reg = Reg(31);

/// The register of an argument, by its number: a call has eight at most.
pub fn argument(number: u64) -> Reg
    ensures { result ≡ spec.argument number }
{
    Reg((number % 8) as u8)
}

/// Appends: the number of a register into another one.
pub fn push_move(code: &mut SymCode, from: Reg, into: Reg) -> Result<(), AllocError>
    ensures { OnOk result (Appends code.old (plain (spec.move from into ∷ [])) code.new) }
{
    push_instr(
        code,
        Instr::OrrReg {
            wide: true,
            rm: from,
            rn: ZERO,
            rd: into,
        },
    )
}

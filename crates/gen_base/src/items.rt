//! Items one by one, labels, and constants.

ghost use Rattle.std.specs.Prelude.{◌≡◌, ◌+◌, ◌*◌, ◌<◌, ◌^◌, [], ◌∷◌, length, OnOk, IfOk};
ghost use Rattle.a64_laws.specs.Constants.{constant_moves, kept_halfword};
ghost use Rattle.gen_base.specs.Code.{Appends, only, plain};

use a64_code::{Instr, Reg};
use std::alloc::AllocError;
use sym_code::{SymCode, SymItem};

/// Appends an item.
pub fn push(code: &mut SymCode, item: SymItem) -> Result<(), AllocError>
    ensures { OnOk result (Appends code.old (only item) code.new) }
{
    code.items.push(item)?;
    Ok(())
}

/// Appends an instruction.
pub fn push_instr(code: &mut SymCode, instr: Instr) -> Result<(), AllocError>
    ensures { OnOk result (Appends code.old (plain (instr ∷ [])) code.new) }
{
    push(code, SymItem::Plain(instr))
}

/// The first of four numbers of labels that only what is appended next has. Where they do not fit, memory is taken to be short.
pub fn next_label(code: &SymCode) -> Result<u32, AllocError>
    ensures number { IfOk result (λ l. l ≡ 4 * length code.now.items.items) }
    ensures room { IfOk result (λ l. l + 3 < 2 ^ 32) }
{
    let at = code.items.len();
    if at < 1 << 30 {
        Ok(4 * at as u32)
    } else {
        Err(AllocError)
    }
}

// Appends: a halfword above the lowest is moved where it is not zero.
fn push_halfword(code: &mut SymCode, hw: u8, bits: u16, rd: Reg) -> Result<(), AllocError>
    ensures { OnOk result (Appends code.old (plain (kept_halfword hw bits rd)) code.new) }
{
    if bits == 0 {
        return Ok(());
    }
    push_instr(
        code,
        Instr::Movk {
            wide: true,
            hw,
            imm16: bits,
            rd,
        },
    )
}

/// Appends: a constant comes into a register.
pub fn push_moves(code: &mut SymCode, rd: Reg, value: u64) -> Result<(), AllocError>
    ensures { OnOk result (Appends code.old (plain (constant_moves rd value)) code.new) }
{
    push_instr(
        code,
        Instr::Movz {
            wide: true,
            hw: 0,
            imm16: (value & 0xffff) as u16,
            rd,
        },
    )?;
    push_halfword(code, 1, (value >> 16 & 0xffff) as u16, rd)?;
    push_halfword(code, 2, (value >> 32 & 0xffff) as u16, rd)?;
    push_halfword(code, 3, (value >> 48) as u16, rd)
}

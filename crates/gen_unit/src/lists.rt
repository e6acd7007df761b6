//! The lists of instructions that a frame wants.

ghost use Rattle.std.specs.Prelude.{◌≡◌, ◌≤◌, ◌++◌, IfOk, OnOk, slice_get};
ghost use Rattle.frame_layout.specs.WellFormed.{IsWellFormed};
ghost use Rattle.a64_laws.specs.Forms.{stack_pointer};
ghost use Rattle.tag_plan.specs.Lists.{offset_from};
ghost use Rattle.gen_unit.specs.Functions as spec;
ghost use Rattle.gen_unit.specs.Words.{address_of};

use a64_code::{Instr, Reg};
use frame_layout::Frame;
use std::alloc::{AllocError, Global};
use tag_plan::{epilogue, prologue, slot_address};

const STACK_POINTER: Reg = Reg(31);

const FRAME_POINTER: Reg = Reg(29);

const LINK_REGISTER: Reg = Reg(30);

// ---- entry and exit

// Appends: SP goes down by so many bytes.
fn push_lower(code: &mut Vec<Instr>, bytes: u64) -> Result<(), AllocError>
    requires { bytes ≤ 262144 }
    ensures { OnOk result (code.new.items ≡ code.old.items ++ spec.lower bytes) }
{
    if bytes < 4096 {
        code.push(Instr::SubImm {
            wide: true,
            sh: 0,
            imm12: bytes as u16,
            rn: STACK_POINTER,
            rd: STACK_POINTER,
        })?;
    } else {
        code.push(Instr::SubImm {
            wide: true,
            sh: 1,
            imm12: (bytes / 4096) as u16,
            rn: STACK_POINTER,
            rd: STACK_POINTER,
        })?;
        code.push(Instr::SubImm {
            wide: true,
            sh: 0,
            imm12: (bytes % 4096) as u16,
            rn: STACK_POINTER,
            rd: STACK_POINTER,
        })?;
    }
    Ok(())
}

// Appends: SP goes up by so many bytes.
fn push_raise(code: &mut Vec<Instr>, bytes: u64) -> Result<(), AllocError>
    requires { bytes ≤ 262144 }
    ensures { OnOk result (code.new.items ≡ code.old.items ++ offset_from stack_pointer bytes stack_pointer) }
{
    if bytes < 4096 {
        code.push(Instr::AddImm {
            wide: true,
            sh: 0,
            imm12: bytes as u16,
            rn: STACK_POINTER,
            rd: STACK_POINTER,
        })?;
    } else {
        code.push(Instr::AddImm {
            wide: true,
            sh: 1,
            imm12: (bytes / 4096) as u16,
            rn: STACK_POINTER,
            rd: STACK_POINTER,
        })?;
        code.push(Instr::AddImm {
            wide: true,
            sh: 0,
            imm12: (bytes % 4096) as u16,
            rn: STACK_POINTER,
            rd: STACK_POINTER,
        })?;
    }
    Ok(())
}

/// The code with which a function begins: its frame is made, X29 and X30 are saved, and the slots that live as long as the call get
/// their tags.
pub fn entry(alloc: Global, frame: &Frame) -> Result<Vec<Instr>, AllocError>
    requires { IsWellFormed frame.now }
    ensures { IfOk result (λ code. code.items ≡ spec.entry frame.now) }
{
    let tags = prologue(alloc, frame)?;
    let mut code = Vec::new(alloc);
    push_lower(&mut code, frame.bytes)?;
    code.push(Instr::Stp {
        imm7: 0,
        rt2: LINK_REGISTER,
        rn: STACK_POINTER,
        rt: FRAME_POINTER,
    })?;
    code.extend_from_slice(tags.as_slice())?;
    Ok(code)
}

/// The code with which it ends: the tags are taken away, X29, X30 and SP are what they were, and it returns.
pub fn exit(alloc: Global, frame: &Frame) -> Result<Vec<Instr>, AllocError>
    requires { IsWellFormed frame.now }
    ensures { IfOk result (λ code. code.items ≡ spec.exit frame.now) }
{
    let mut code = epilogue(alloc, frame)?;
    code.push(Instr::Ldp {
        imm7: 0,
        rt2: LINK_REGISTER,
        rn: STACK_POINTER,
        rt: FRAME_POINTER,
    })?;
    push_raise(&mut code, frame.bytes)?;
    code.push(Instr::Ret)?;
    Ok(code)
}

// ---- slots and scopes

/// The code that puts the pointer to a slot into a register; none where there is no such slot.
pub fn address(alloc: Global, frame: &Frame, slot: u32, into: Reg) -> Result<Vec<Instr>, AllocError>
    requires { IsWellFormed frame.now }
    ensures { IfOk result (λ code. code.items ≡ address_of (slice_get frame.now.slots slot) into) }
{
    if (slot as usize) < frame.slots.len() {
        slot_address(alloc, frame, slot, into)
    } else {
        Ok(Vec::new(alloc))
    }
}

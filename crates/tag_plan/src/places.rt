// Registers of the lists, and the places of a frame in them.
ghost use Rattle.std.specs.Prelude.{◌≡◌, ◌≤◌, ◌<◌, ◌++◌, OnOk};
ghost use Rattle.a64_laws.specs.Forms.{stack_pointer};
ghost use Rattle.frame_layout.specs.WellFormed.{is_tagged_slot};
ghost use Rattle.tag_plan.specs.Lists as spec;

use crate::rounds::{STACK_POINTER, push_quickly, push_shortly};
use a64_code::{Instr, Reg};
use frame_layout::Slot;
use slot_safety::Kind;
use std::alloc::AllocError;

/// The frame's lowest address with the base tag.
pub const TAGGED_BASE: Reg = Reg(28);

/// Where granules are tagged.
pub const PLACE: Reg = Reg(9);

/// How many turns of a loop are to come.
pub const COUNT: Reg = Reg(10);

/// The tag that granules get.
pub const SOURCE: Reg = Reg(11);

/// Appends: so many bytes on from a register or SP, into a register.
fn push_offset(code: &mut Vec<Instr>, from: Reg, bytes: u64, into: Reg) -> Result<(), AllocError>
    requires { bytes ≤ 262144 }
    ensures { OnOk result (code.new.items ≡ code.old.items ++ spec.offset_from from bytes into) }
{
    if bytes < 4096 {
        code.push(Instr::AddImm {
            wide: true,
            sh: 0,
            imm12: bytes as u16,
            rn: from,
            rd: into,
        })?;
    } else {
        code.push(Instr::AddImm {
            wide: true,
            sh: 1,
            imm12: (bytes / 4096) as u16,
            rn: from,
            rd: into,
        })?;
        code.push(Instr::AddImm {
            wide: true,
            sh: 0,
            imm12: (bytes % 4096) as u16,
            rn: into,
            rd: into,
        })?;
    }
    Ok(())
}

// Appends: so many bytes on from the tagged base, with the tag of an index, into a register.
fn push_tagged(code: &mut Vec<Instr>, bytes: u64, index: u8, into: Reg) -> Result<(), AllocError>
    requires { bytes ≤ 262144 }
    ensures { OnOk result (code.new.items ≡ code.old.items ++ spec.tagged_place bytes index into) }
{
    if bytes < 1024 {
        code.push(Instr::Addg {
            uimm6: (bytes / 16) as u8,
            uimm4: index,
            rn: TAGGED_BASE,
            rd: into,
        })?;
        return Ok(());
    }
    push_offset(code, TAGGED_BASE, bytes, into)?;
    code.push(Instr::Addg {
        uimm6: 0,
        uimm4: index,
        rn: into,
        rd: into,
    })?;
    Ok(())
}

/// Whether a slot is tagged.
pub fn is_tagged(slot: &Slot) -> bool
    ensures { result ≡ is_tagged_slot slot.now }
{
    match slot.kind {
        Kind::Safe => false,
        Kind::Tagged => true,
    }
}

/// Appends: the pointer to a slot, into a register.
pub fn push_address(code: &mut Vec<Instr>, slot: &Slot, into: Reg) -> Result<(), AllocError>
    requires start { slot.now.start ≤ 262144 }
    ensures { OnOk result (code.new.items ≡ code.old.items ++ spec.slot_address_list slot.now into) }
{
    if is_tagged(slot) {
        push_tagged(code, slot.start, slot.index, into)
    } else {
        push_offset(code, STACK_POINTER, slot.start, into)
    }
}

/// Appends: the granules of a slot get its tag.
pub fn push_slot(code: &mut Vec<Instr>, slot: &Slot) -> Result<(), AllocError>
    requires start { slot.now.start ≤ 262144 }
    requires bytes { slot.now.bytes ≤ 262144 }
    ensures { OnOk result (code.new.items ≡ code.old.items ++ spec.slot_list slot.now) }
{
    push_offset(code, STACK_POINTER, slot.start, PLACE)?;
    code.push(Instr::Addg {
        uimm6: 0,
        uimm4: slot.index,
        rn: TAGGED_BASE,
        rd: SOURCE,
    })?;
    push_shortly(code, slot.bytes / 16)
}

/// Appends: so many granules of the frame from a place on lose their tags.
pub fn push_clearing(code: &mut Vec<Instr>, from: u64, granules: u64) -> Result<(), AllocError>
    requires place { from ≤ 262144 }
    requires reach { granules ≤ 16384 }
    ensures { OnOk result (code.new.items ≡ code.old.items ++ spec.clearing from granules) }
{
    push_offset(code, STACK_POINTER, from, PLACE)?;
    push_quickly(code, granules)
}

// The operands of a line, by the shapes that instructions share. No line has more than four.
ghost use Rattle.std.specs.Prelude.{◌<◌, ◌≤◌};

use crate::operand::{Operand, Signed};
use a64_code::Reg;

/// In which fields of an instruction the number 31 is the stack pointer.
#[derive(Clone, Copy)]
pub struct Sp {
    pub rd: bool,
    pub rn: bool,
    pub rt: bool,
}

pub fn nothing() -> [Operand; 4] {
    [Operand::None, Operand::None, Operand::None, Operand::None]
}

/// A halfword and its place, in halfwords.
pub fn halfword(wide: bool, rd: Reg, imm16: u16, hw: u8) -> [Operand; 4] {
    [
        zr(wide, rd),
        Operand::Number(imm16 as u64),
        shift(16 * hw as u64),
        Operand::None,
    ]
}

/// A register and a number, shifted by 12 bits or not.
pub fn immediate(wide: bool, sp: Sp, rd: Reg, rn: Reg, imm12: u16, sh: u8) -> [Operand; 4] {
    [
        reg(wide, rd, sp.rd),
        reg(wide, rn, sp.rn),
        Operand::Number(imm12 as u64),
        shift(12 * sh as u64),
    ]
}

pub fn three(wide: bool, rd: Reg, rn: Reg, rm: Reg) -> [Operand; 4] {
    [zr(wide, rd), zr(wide, rn), zr(wide, rm), Operand::None]
}

pub fn four(wide: bool, rd: Reg, rn: Reg, rm: Reg, ra: Reg) -> [Operand; 4] {
    [zr(wide, rd), zr(wide, rn), zr(wide, rm), zr(wide, ra)]
}

pub fn bit_field(wide: bool, rd: Reg, rn: Reg, immr: u8, imms: u8) -> [Operand; 4] {
    [
        zr(wide, rd),
        zr(wide, rn),
        Operand::Number(immr as u64),
        Operand::Number(imms as u64),
    ]
}

/// Two registers of which a condition selects one.
pub fn select(wide: bool, rd: Reg, rn: Reg, rm: Reg, cond: u8) -> [Operand; 4] {
    [
        zr(wide, rd),
        zr(wide, rn),
        zr(wide, rm),
        Operand::Condition(cond),
    ]
}

/// A branch on whether a register is zero.
pub fn branch_on(wide: bool, rt: Reg, imm19: u32) -> [Operand; 4] {
    [
        zr(wide, rt),
        Operand::Offset(Signed::new(imm19, 19, 2)),
        Operand::None,
        Operand::None,
    ]
}

/// A branch to a distance of `width` bits, in words.
pub fn branch(distance: u32, width: u32) -> [Operand; 4]
    requires width { 0 < width }
    requires narrow { width ≤ 26 }
{
    [
        Operand::Offset(Signed::new(distance, width, 2)),
        Operand::None,
        Operand::None,
        Operand::None,
    ]
}

/// A distance in pages.
pub fn page(rd: Reg, immhi: u32, immlo: u8) -> [Operand; 4] {
    [
        zr(true, rd),
        Operand::Offset(Signed::new(immhi << 2 | immlo as u32, 21, 12)),
        Operand::None,
        Operand::None,
    ]
}

/// A load or a store at an offset in units of so many bytes.
pub fn access(wide: bool, rt: Reg, rn: Reg, imm12: u16, bytes: u16) -> [Operand; 4] {
    let offset = Signed {
        negative: false,
        magnitude: bytes as u64 * imm12 as u64,
    };
    [
        zr(wide, rt),
        Operand::Memory(rn.0, offset),
        Operand::None,
        Operand::None,
    ]
}

/// A load or a store of two registers, at an offset in units of 8 bytes.
pub fn pair(rt: Reg, rt2: Reg, rn: Reg, imm7: u8) -> [Operand; 4] {
    [
        zr(true, rt),
        zr(true, rt2),
        Operand::Memory(rn.0, Signed::new(imm7 as u32, 7, 3)),
        Operand::None,
    ]
}

pub fn service(imm16: u16) -> [Operand; 4] {
    [
        Operand::Number(imm16 as u64),
        Operand::None,
        Operand::None,
        Operand::None,
    ]
}

/// An address with a distance in granules and one of tags.
pub fn tagged(sp: Sp, rd: Reg, rn: Reg, uimm6: u8, uimm4: u8) -> [Operand; 4] {
    [
        reg(true, rd, sp.rd),
        reg(true, rn, sp.rn),
        Operand::Number(16 * uimm6 as u64),
        Operand::Number(uimm4 as u64),
    ]
}

pub fn random_tag(sp: Sp, rd: Reg, rn: Reg, rm: Reg) -> [Operand; 4] {
    [
        reg(true, rd, sp.rd),
        reg(true, rn, sp.rn),
        zr(true, rm),
        Operand::None,
    ]
}

/// A load or a store of tags, at an offset in granules.
pub fn tag_access(sp: Sp, rt: Reg, rn: Reg, simm9: u16) -> [Operand; 4] {
    [
        reg(true, rt, sp.rt),
        Operand::Memory(rn.0, Signed::new(simm9 as u32, 9, 4)),
        Operand::None,
        Operand::None,
    ]
}

/// A register whose number 31 is the stack pointer or zero.
fn reg(wide: bool, reg: Reg, sp: bool) -> Operand {
    Operand::Register {
        wide,
        number: reg.0,
        sp,
    }
}

/// A register whose number 31 is zero.
fn zr(wide: bool, register: Reg) -> Operand {
    reg(wide, register, false)
}

/// A shift to the left, which is not written where it is zero.
fn shift(bits: u64) -> Operand {
    if bits == 0 {
        Operand::None
    } else {
        Operand::Shift(bits)
    }
}

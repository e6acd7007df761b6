/// A register by its number from 0 to 31. Number 31 is the stack pointer or the zero register, as `Instr::takes_sp` says.
#[derive(Clone, Copy)]
pub struct Reg(pub u8);

/// An instruction with its fields as they stand in the word: unsigned, and a signed number in two's complement of the
/// field's width. `wide` is true for the form on 64 bits. (Arm ARM, C6.2)
#[derive(Clone, Copy)]
pub enum Instr {
    Movz {
        wide: bool,
        hw: u8,
        imm16: u16,
        rd: Reg,
    },
    Movk {
        wide: bool,
        hw: u8,
        imm16: u16,
        rd: Reg,
    },
    Movn {
        wide: bool,
        hw: u8,
        imm16: u16,
        rd: Reg,
    },
    AddImm {
        wide: bool,
        sh: u8,
        imm12: u16,
        rn: Reg,
        rd: Reg,
    },
    SubImm {
        wide: bool,
        sh: u8,
        imm12: u16,
        rn: Reg,
        rd: Reg,
    },
    SubsImm {
        wide: bool,
        sh: u8,
        imm12: u16,
        rn: Reg,
        rd: Reg,
    },
    AddReg {
        wide: bool,
        rm: Reg,
        rn: Reg,
        rd: Reg,
    },
    SubReg {
        wide: bool,
        rm: Reg,
        rn: Reg,
        rd: Reg,
    },
    SubsReg {
        wide: bool,
        rm: Reg,
        rn: Reg,
        rd: Reg,
    },
    AndReg {
        wide: bool,
        rm: Reg,
        rn: Reg,
        rd: Reg,
    },
    OrrReg {
        wide: bool,
        rm: Reg,
        rn: Reg,
        rd: Reg,
    },
    EorReg {
        wide: bool,
        rm: Reg,
        rn: Reg,
        rd: Reg,
    },
    Sbfm {
        wide: bool,
        immr: u8,
        imms: u8,
        rn: Reg,
        rd: Reg,
    },
    Ubfm {
        wide: bool,
        immr: u8,
        imms: u8,
        rn: Reg,
        rd: Reg,
    },
    Cbz {
        wide: bool,
        imm19: u32,
        rt: Reg,
    },
    Cbnz {
        wide: bool,
        imm19: u32,
        rt: Reg,
    },
    Ldr {
        wide: bool,
        imm12: u16,
        rn: Reg,
        rt: Reg,
    },
    Str {
        wide: bool,
        imm12: u16,
        rn: Reg,
        rt: Reg,
    },
    Madd {
        wide: bool,
        rm: Reg,
        ra: Reg,
        rn: Reg,
        rd: Reg,
    },
    Msub {
        wide: bool,
        rm: Reg,
        ra: Reg,
        rn: Reg,
        rd: Reg,
    },
    Csinc {
        wide: bool,
        rm: Reg,
        cond: u8,
        rn: Reg,
        rd: Reg,
    },
    Lslv {
        wide: bool,
        rm: Reg,
        rn: Reg,
        rd: Reg,
    },
    Lsrv {
        wide: bool,
        rm: Reg,
        rn: Reg,
        rd: Reg,
    },
    Asrv {
        wide: bool,
        rm: Reg,
        rn: Reg,
        rd: Reg,
    },
    Udiv {
        wide: bool,
        rm: Reg,
        rn: Reg,
        rd: Reg,
    },
    Sdiv {
        wide: bool,
        rm: Reg,
        rn: Reg,
        rd: Reg,
    },
    Irg {
        rm: Reg,
        rn: Reg,
        rd: Reg,
    },
    Ldrb {
        imm12: u16,
        rn: Reg,
        rt: Reg,
    },
    Strb {
        imm12: u16,
        rn: Reg,
        rt: Reg,
    },
    Ldrh {
        imm12: u16,
        rn: Reg,
        rt: Reg,
    },
    Strh {
        imm12: u16,
        rn: Reg,
        rt: Reg,
    },
    Ldrsw {
        imm12: u16,
        rn: Reg,
        rt: Reg,
    },
    Ldrsb {
        imm12: u16,
        rn: Reg,
        rt: Reg,
    },
    Ldrsh {
        imm12: u16,
        rn: Reg,
        rt: Reg,
    },
    Stp {
        imm7: u8,
        rt2: Reg,
        rn: Reg,
        rt: Reg,
    },
    Ldp {
        imm7: u8,
        rt2: Reg,
        rn: Reg,
        rt: Reg,
    },
    B {
        imm26: u32,
    },
    Bl {
        imm26: u32,
    },
    BCond {
        imm19: u32,
        cond: u8,
    },
    Adrp {
        immlo: u8,
        immhi: u32,
        rd: Reg,
    },
    Ret,
    Nop,
    Svc {
        imm16: u16,
    },
    Addg {
        uimm6: u8,
        uimm4: u8,
        rn: Reg,
        rd: Reg,
    },
    Subg {
        uimm6: u8,
        uimm4: u8,
        rn: Reg,
        rd: Reg,
    },
    Stg {
        simm9: u16,
        rn: Reg,
        rt: Reg,
    },
    Stzg {
        simm9: u16,
        rn: Reg,
        rt: Reg,
    },
    Ldg {
        simm9: u16,
        rn: Reg,
        rt: Reg,
    },
    St2g {
        simm9: u16,
        rn: Reg,
        rt: Reg,
    },
    Stz2g {
        simm9: u16,
        rn: Reg,
        rt: Reg,
    },
}

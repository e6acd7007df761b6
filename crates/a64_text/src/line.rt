use crate::condition::BRANCHES;
use crate::operand::Operand;
use crate::operands::*;
use a64_code::{Instr, RegisterField};

/// A line of assembly: the word that it begins with, and its operands in their order.
#[derive(Clone, Copy)]
pub struct Line {
    pub mnemonic: &'static str,
    pub operands: [Operand; 4],
}

/// An arm for each instruction.
macro_rules! lines {
    ($instr:ident; $($name:ident { $($field:ident),* } $mnemonic:expr, $operands:expr;)*) => {
        match $instr {
            $(Instr::$name { $($field),* } => Line { mnemonic: $mnemonic, operands: $operands },)*
        }
    };
}

/// The line of an instruction.
pub fn line_of(instr: Instr) -> Line {
    let sp = Sp {
        rd: instr.takes_sp(RegisterField::Rd),
        rn: instr.takes_sp(RegisterField::Rn),
        rt: instr.takes_sp(RegisterField::Rt),
    };
    lines! { instr;
        Movz { wide, hw, imm16, rd } "movz", halfword(wide, rd, imm16, hw);
        Movk { wide, hw, imm16, rd } "movk", halfword(wide, rd, imm16, hw);
        Movn { wide, hw, imm16, rd } "movn", halfword(wide, rd, imm16, hw);
        AddImm { wide, sh, imm12, rn, rd } "add", immediate(wide, sp, rd, rn, imm12, sh);
        SubImm { wide, sh, imm12, rn, rd } "sub", immediate(wide, sp, rd, rn, imm12, sh);
        SubsImm { wide, sh, imm12, rn, rd } "subs", immediate(wide, sp, rd, rn, imm12, sh);
        AddReg { wide, rm, rn, rd } "add", three(wide, rd, rn, rm);
        SubReg { wide, rm, rn, rd } "sub", three(wide, rd, rn, rm);
        SubsReg { wide, rm, rn, rd } "subs", three(wide, rd, rn, rm);
        AndReg { wide, rm, rn, rd } "and", three(wide, rd, rn, rm);
        OrrReg { wide, rm, rn, rd } "orr", three(wide, rd, rn, rm);
        EorReg { wide, rm, rn, rd } "eor", three(wide, rd, rn, rm);
        Sbfm { wide, immr, imms, rn, rd } "sbfm", bit_field(wide, rd, rn, immr, imms);
        Ubfm { wide, immr, imms, rn, rd } "ubfm", bit_field(wide, rd, rn, immr, imms);
        Cbz { wide, imm19, rt } "cbz", branch_on(wide, rt, imm19);
        Cbnz { wide, imm19, rt } "cbnz", branch_on(wide, rt, imm19);
        Ldr { wide, imm12, rn, rt } "ldr", access(wide, rt, rn, imm12, if wide { 8 } else { 4 });
        Str { wide, imm12, rn, rt } "str", access(wide, rt, rn, imm12, if wide { 8 } else { 4 });
        Madd { wide, rm, ra, rn, rd } "madd", four(wide, rd, rn, rm, ra);
        Msub { wide, rm, ra, rn, rd } "msub", four(wide, rd, rn, rm, ra);
        Csinc { wide, rm, cond, rn, rd } "csinc", select(wide, rd, rn, rm, cond);
        Lslv { wide, rm, rn, rd } "lslv", three(wide, rd, rn, rm);
        Lsrv { wide, rm, rn, rd } "lsrv", three(wide, rd, rn, rm);
        Asrv { wide, rm, rn, rd } "asrv", three(wide, rd, rn, rm);
        Udiv { wide, rm, rn, rd } "udiv", three(wide, rd, rn, rm);
        Sdiv { wide, rm, rn, rd } "sdiv", three(wide, rd, rn, rm);
        Irg { rm, rn, rd } "irg", random_tag(sp, rd, rn, rm);
        Ldrb { imm12, rn, rt } "ldrb", access(false, rt, rn, imm12, 1);
        Strb { imm12, rn, rt } "strb", access(false, rt, rn, imm12, 1);
        Ldrh { imm12, rn, rt } "ldrh", access(false, rt, rn, imm12, 2);
        Strh { imm12, rn, rt } "strh", access(false, rt, rn, imm12, 2);
        Ldrsw { imm12, rn, rt } "ldrsw", access(true, rt, rn, imm12, 4);
        Ldrsb { imm12, rn, rt } "ldrsb", access(true, rt, rn, imm12, 1);
        Ldrsh { imm12, rn, rt } "ldrsh", access(true, rt, rn, imm12, 2);
        Stp { imm7, rt2, rn, rt } "stp", pair(rt, rt2, rn, imm7);
        Ldp { imm7, rt2, rn, rt } "ldp", pair(rt, rt2, rn, imm7);
        B { imm26 } "b", branch(imm26, 26);
        Bl { imm26 } "bl", branch(imm26, 26);
        BCond { imm19, cond } BRANCHES[(cond % 16) as usize], branch(imm19, 19);
        Adrp { immlo, immhi, rd } "adrp", page(rd, immhi, immlo);
        Ret {} "ret", nothing();
        Nop {} "nop", nothing();
        Svc { imm16 } "svc", service(imm16);
        Addg { uimm6, uimm4, rn, rd } "addg", tagged(sp, rd, rn, uimm6, uimm4);
        Subg { uimm6, uimm4, rn, rd } "subg", tagged(sp, rd, rn, uimm6, uimm4);
        Stg { simm9, rn, rt } "stg", tag_access(sp, rt, rn, simm9);
        Stzg { simm9, rn, rt } "stzg", tag_access(sp, rt, rn, simm9);
        Ldg { simm9, rn, rt } "ldg", tag_access(sp, rt, rn, simm9);
        St2g { simm9, rn, rt } "st2g", tag_access(sp, rt, rn, simm9);
        Stz2g { simm9, rn, rt } "stz2g", tag_access(sp, rt, rn, simm9);
    }
}

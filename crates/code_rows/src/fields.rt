use a64_code::{Instr, Reg};

/// An arm for each instruction.
macro_rules! instructions {
    ($instr:ident; $($name:ident { $($field:ident: $value:expr),* })*) => {
        match $instr {
            $(Instr::$name { .. } => Instr::$name { $($field: $value),* },)*
        }
    };
}

/// The instruction of the same row of the table with these values in its fields, in the order in which `Instr` has them. A
/// flag is set by each number but 0, and a field takes the low bits that its type holds.
pub fn with_fields(instr: Instr, values: [u32; 5]) -> Instr {
    let [a, b, c, d, e] = values;
    instructions! { instr;
        Movz { wide: flag(a), hw: byte(b), imm16: half(c), rd: reg(d) }
        Movk { wide: flag(a), hw: byte(b), imm16: half(c), rd: reg(d) }
        Movn { wide: flag(a), hw: byte(b), imm16: half(c), rd: reg(d) }
        AddImm { wide: flag(a), sh: byte(b), imm12: half(c), rn: reg(d), rd: reg(e) }
        SubImm { wide: flag(a), sh: byte(b), imm12: half(c), rn: reg(d), rd: reg(e) }
        SubsImm { wide: flag(a), sh: byte(b), imm12: half(c), rn: reg(d), rd: reg(e) }
        AddReg { wide: flag(a), rm: reg(b), rn: reg(c), rd: reg(d) }
        SubReg { wide: flag(a), rm: reg(b), rn: reg(c), rd: reg(d) }
        SubsReg { wide: flag(a), rm: reg(b), rn: reg(c), rd: reg(d) }
        AndReg { wide: flag(a), rm: reg(b), rn: reg(c), rd: reg(d) }
        OrrReg { wide: flag(a), rm: reg(b), rn: reg(c), rd: reg(d) }
        EorReg { wide: flag(a), rm: reg(b), rn: reg(c), rd: reg(d) }
        Sbfm { wide: flag(a), immr: byte(b), imms: byte(c), rn: reg(d), rd: reg(e) }
        Ubfm { wide: flag(a), immr: byte(b), imms: byte(c), rn: reg(d), rd: reg(e) }
        Cbz { wide: flag(a), imm19: b, rt: reg(c) }
        Cbnz { wide: flag(a), imm19: b, rt: reg(c) }
        Ldr { wide: flag(a), imm12: half(b), rn: reg(c), rt: reg(d) }
        Str { wide: flag(a), imm12: half(b), rn: reg(c), rt: reg(d) }
        Madd { wide: flag(a), rm: reg(b), ra: reg(c), rn: reg(d), rd: reg(e) }
        Msub { wide: flag(a), rm: reg(b), ra: reg(c), rn: reg(d), rd: reg(e) }
        Csinc { wide: flag(a), rm: reg(b), cond: byte(c), rn: reg(d), rd: reg(e) }
        Lslv { wide: flag(a), rm: reg(b), rn: reg(c), rd: reg(d) }
        Lsrv { wide: flag(a), rm: reg(b), rn: reg(c), rd: reg(d) }
        Asrv { wide: flag(a), rm: reg(b), rn: reg(c), rd: reg(d) }
        Udiv { wide: flag(a), rm: reg(b), rn: reg(c), rd: reg(d) }
        Sdiv { wide: flag(a), rm: reg(b), rn: reg(c), rd: reg(d) }
        Irg { rm: reg(a), rn: reg(b), rd: reg(c) }
        Ldrb { imm12: half(a), rn: reg(b), rt: reg(c) }
        Strb { imm12: half(a), rn: reg(b), rt: reg(c) }
        Ldrh { imm12: half(a), rn: reg(b), rt: reg(c) }
        Strh { imm12: half(a), rn: reg(b), rt: reg(c) }
        Ldrsw { imm12: half(a), rn: reg(b), rt: reg(c) }
        Ldrsb { imm12: half(a), rn: reg(b), rt: reg(c) }
        Ldrsh { imm12: half(a), rn: reg(b), rt: reg(c) }
        Stp { imm7: byte(a), rt2: reg(b), rn: reg(c), rt: reg(d) }
        Ldp { imm7: byte(a), rt2: reg(b), rn: reg(c), rt: reg(d) }
        B { imm26: a }
        Bl { imm26: a }
        BCond { imm19: a, cond: byte(b) }
        Adrp { immlo: byte(a), immhi: b, rd: reg(c) }
        Ret {}
        Nop {}
        Svc { imm16: half(a) }
        Addg { uimm6: byte(a), uimm4: byte(b), rn: reg(c), rd: reg(d) }
        Subg { uimm6: byte(a), uimm4: byte(b), rn: reg(c), rd: reg(d) }
        Stg { simm9: half(a), rn: reg(b), rt: reg(c) }
        Stzg { simm9: half(a), rn: reg(b), rt: reg(c) }
        Ldg { simm9: half(a), rn: reg(b), rt: reg(c) }
        St2g { simm9: half(a), rn: reg(b), rt: reg(c) }
        Stz2g { simm9: half(a), rn: reg(b), rt: reg(c) }
    }
}

fn flag(value: u32) -> bool {
    value != 0
}

fn byte(value: u32) -> u8 {
    (value & 0xff) as u8
}

fn half(value: u32) -> u16 {
    (value & 0xffff) as u16
}

fn reg(value: u32) -> Reg {
    Reg(byte(value))
}

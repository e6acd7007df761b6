/// The table of instructions (Arm ARM, C6.2), handed to another macro. A line has the name, the base word of the form on 64
/// bits and, where there is one, of that on 32, and the fields from the highest bit down, each with its type and its place.
/// The lines stand in the order of `Instr`, those of two forms first, so that the rows whose words agree in their upper nine
/// bits stand together.
macro_rules! table {
    ($use:ident $($with:ident)*) => {
        $use! {
            ($($with)*)
            both {
                Movz 0xD280_0000 0x5280_0000 { hw: u8 = HW, imm16: u16 = IMM16, rd: Reg = RD }
                Movk 0xF280_0000 0x7280_0000 { hw: u8 = HW, imm16: u16 = IMM16, rd: Reg = RD }
                Movn 0x9280_0000 0x1280_0000 { hw: u8 = HW, imm16: u16 = IMM16, rd: Reg = RD }
                AddImm 0x9100_0000 0x1100_0000 { sh: u8 = SH, imm12: u16 = IMM12, rn: Reg = RN_SP, rd: Reg = RD_SP }
                SubImm 0xD100_0000 0x5100_0000 { sh: u8 = SH, imm12: u16 = IMM12, rn: Reg = RN_SP, rd: Reg = RD_SP }
                SubsImm 0xF100_0000 0x7100_0000 { sh: u8 = SH, imm12: u16 = IMM12, rn: Reg = RN_SP, rd: Reg = RD }
                AddReg 0x8B00_0000 0x0B00_0000 { rm: Reg = RM, rn: Reg = RN, rd: Reg = RD }
                SubReg 0xCB00_0000 0x4B00_0000 { rm: Reg = RM, rn: Reg = RN, rd: Reg = RD }
                SubsReg 0xEB00_0000 0x6B00_0000 { rm: Reg = RM, rn: Reg = RN, rd: Reg = RD }
                AndReg 0x8A00_0000 0x0A00_0000 { rm: Reg = RM, rn: Reg = RN, rd: Reg = RD }
                OrrReg 0xAA00_0000 0x2A00_0000 { rm: Reg = RM, rn: Reg = RN, rd: Reg = RD }
                EorReg 0xCA00_0000 0x4A00_0000 { rm: Reg = RM, rn: Reg = RN, rd: Reg = RD }
                Sbfm 0x9340_0000 0x1300_0000 { immr: u8 = IMMR, imms: u8 = IMMS, rn: Reg = RN, rd: Reg = RD }
                Ubfm 0xD340_0000 0x5300_0000 { immr: u8 = IMMR, imms: u8 = IMMS, rn: Reg = RN, rd: Reg = RD }
                Cbz 0xB400_0000 0x3400_0000 { imm19: u32 = IMM19, rt: Reg = RT }
                Cbnz 0xB500_0000 0x3500_0000 { imm19: u32 = IMM19, rt: Reg = RT }
                Ldr 0xF940_0000 0xB940_0000 { imm12: u16 = IMM12, rn: Reg = RN_SP, rt: Reg = RT }
                Str 0xF900_0000 0xB900_0000 { imm12: u16 = IMM12, rn: Reg = RN_SP, rt: Reg = RT }
                Madd 0x9B00_0000 0x1B00_0000 { rm: Reg = RM, ra: Reg = RA, rn: Reg = RN, rd: Reg = RD }
                Msub 0x9B00_8000 0x1B00_8000 { rm: Reg = RM, ra: Reg = RA, rn: Reg = RN, rd: Reg = RD }
                Csinc 0x9A80_0400 0x1A80_0400 { rm: Reg = RM, cond: u8 = COND, rn: Reg = RN, rd: Reg = RD }
                Lslv 0x9AC0_2000 0x1AC0_2000 { rm: Reg = RM, rn: Reg = RN, rd: Reg = RD }
                Lsrv 0x9AC0_2400 0x1AC0_2400 { rm: Reg = RM, rn: Reg = RN, rd: Reg = RD }
                Asrv 0x9AC0_2800 0x1AC0_2800 { rm: Reg = RM, rn: Reg = RN, rd: Reg = RD }
                Udiv 0x9AC0_0800 0x1AC0_0800 { rm: Reg = RM, rn: Reg = RN, rd: Reg = RD }
                Sdiv 0x9AC0_0C00 0x1AC0_0C00 { rm: Reg = RM, rn: Reg = RN, rd: Reg = RD }
            }
            one {
                Irg 0x9AC0_1000 { rm: Reg = RM, rn: Reg = RN_SP, rd: Reg = RD_SP }
                Ldrb 0x3940_0000 { imm12: u16 = IMM12, rn: Reg = RN_SP, rt: Reg = RT }
                Strb 0x3900_0000 { imm12: u16 = IMM12, rn: Reg = RN_SP, rt: Reg = RT }
                Ldrh 0x7940_0000 { imm12: u16 = IMM12, rn: Reg = RN_SP, rt: Reg = RT }
                Strh 0x7900_0000 { imm12: u16 = IMM12, rn: Reg = RN_SP, rt: Reg = RT }
                Ldrsw 0xB980_0000 { imm12: u16 = IMM12, rn: Reg = RN_SP, rt: Reg = RT }
                Ldrsb 0x3980_0000 { imm12: u16 = IMM12, rn: Reg = RN_SP, rt: Reg = RT }
                Ldrsh 0x7980_0000 { imm12: u16 = IMM12, rn: Reg = RN_SP, rt: Reg = RT }
                Stp 0xA900_0000 { imm7: u8 = IMM7, rt2: Reg = RT2, rn: Reg = RN_SP, rt: Reg = RT }
                Ldp 0xA940_0000 { imm7: u8 = IMM7, rt2: Reg = RT2, rn: Reg = RN_SP, rt: Reg = RT }
                B 0x1400_0000 { imm26: u32 = IMM26 }
                Bl 0x9400_0000 { imm26: u32 = IMM26 }
                BCond 0x5400_0000 { imm19: u32 = IMM19, cond: u8 = BRANCH_COND }
                Adrp 0x9000_0000 { immlo: u8 = IMMLO, immhi: u32 = IMMHI, rd: Reg = RD }
                Ret 0xD65F_03C0 {}
                Nop 0xD503_201F {}
                Svc 0xD400_0001 { imm16: u16 = IMM16 }
                Addg 0x9180_0000 { uimm6: u8 = UIMM6, uimm4: u8 = UIMM4, rn: Reg = RN_SP, rd: Reg = RD_SP }
                Subg 0xD180_0000 { uimm6: u8 = UIMM6, uimm4: u8 = UIMM4, rn: Reg = RN_SP, rd: Reg = RD_SP }
                Stg 0xD920_0800 { simm9: u16 = SIMM9, rn: Reg = RN_SP, rt: Reg = RT_SP }
                Stzg 0xD960_0800 { simm9: u16 = SIMM9, rn: Reg = RN_SP, rt: Reg = RT_SP }
                Ldg 0xD960_0000 { simm9: u16 = SIMM9, rn: Reg = RN_SP, rt: Reg = RT }
                St2g 0xD9A0_0800 { simm9: u16 = SIMM9, rn: Reg = RN_SP, rt: Reg = RT_SP }
                Stz2g 0xD9E0_0800 { simm9: u16 = SIMM9, rn: Reg = RN_SP, rt: Reg = RT_SP }
            }
        }
    };
}

pub(crate) use table;

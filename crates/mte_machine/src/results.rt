// Instructions that put the result of an operation into a register.
ghost use Rattle.std.specs.Prelude.{◌≡◌, ◌^◌, ◌<◌, true, false};
ghost use Rattle.a64_code.specs.Field.{AllFit};
ghost use Rattle.a64_code.specs.Table.{encoding};
ghost use Rattle.a64_code.specs.Effect.{effect};
ghost use Rattle.mte_machine.specs.Groups.{IsMove, AddsNumber, AddsRegister, Combines, Shifts, Multiplies};
ghost use Rattle.mte_machine.specs.Machine.{Executes};

use crate::arithmetic::chosen_or_next;
use crate::immediate::{halfword_at, shifted_immediate, with_halfword};
use crate::machine::Machine;
use crate::step::Step;
use a64_alu::{
    add, condition_holds, divide_signed, divide_unsigned, invert, multiply_add, multiply_sub,
    shift_arithmetic, shift_left, shift_right, signed_bitfield, subtract, unsigned_bitfield,
};
use a64_code::Instr;
use a64_code::Instr::{
    AddImm, AddReg, Adrp, AndReg, Asrv, Csinc, EorReg, Lslv, Lsrv, Madd, Movk, Movn, Movz, Msub,
    OrrReg, Sbfm, Sdiv, SubImm, SubReg, SubsImm, SubsReg, Ubfm, Udiv,
};
use tag_mem::TagMemory;

impl<M: TagMemory> Machine<M> {
    // Moves of a number, or of an address relative to PC.
    pub(crate) fn move_number(&mut self, instr: Instr) -> Step
        requires fields { AllFit (encoding instr).fields }
        requires group { IsMove instr }
        ensures { Executes M.TagMemory (effect instr) self.old result self.new }
    {
        match instr {
            Movz {
                wide,
                hw,
                imm16,
                rd,
            } => self.put(wide, rd, halfword_at(wide, hw, imm16)),
            Movk {
                wide,
                hw,
                imm16,
                rd,
            } => {
                let old = self.number(wide, rd);
                self.put(wide, rd, with_halfword(old, hw, imm16))
            }
            Movn {
                wide,
                hw,
                imm16,
                rd,
            } => self.put(wide, rd, invert(wide, halfword_at(wide, hw, imm16))),
            Adrp { immlo, immhi, rd } => self.put(true, rd, self.page_target(immhi, immlo)),
            _ => unreachable!(),
        }
    }

    // Addition and subtraction of a number.
    pub(crate) fn add_number(&mut self, instr: Instr) -> Step
        requires fields { AllFit (encoding instr).fields }
        requires group { AddsNumber instr }
        ensures { Executes M.TagMemory (effect instr) self.old result self.new }
    {
        match instr {
            AddImm {
                wide,
                sh,
                imm12,
                rn,
                rd,
            } => {
                let y = shifted_immediate(sh, imm12);
                self.put_or_sp(wide, rd, add(wide, self.general_or_sp(rn), y))
            }
            SubImm {
                wide,
                sh,
                imm12,
                rn,
                rd,
            } => {
                let y = shifted_immediate(sh, imm12);
                self.put_or_sp(wide, rd, subtract(wide, self.general_or_sp(rn), y))
            }
            SubsImm {
                wide,
                sh,
                imm12,
                rn,
                rd,
            } => {
                let y = shifted_immediate(sh, imm12);
                self.put_difference(wide, rd, self.general_or_sp(rn), y)
            }
            _ => unreachable!(),
        }
    }

    // Addition and subtraction of a register.
    pub(crate) fn add_register(&mut self, instr: Instr) -> Step
        requires group { AddsRegister instr }
        ensures { Executes M.TagMemory (effect instr) self.old result self.new }
    {
        match instr {
            AddReg { wide, rm, rn, rd } => self.put(
                wide,
                rd,
                add(wide, self.general(rn), self.general(rm)),
            ),
            SubReg { wide, rm, rn, rd } => self.put(
                wide,
                rd,
                subtract(wide, self.general(rn), self.general(rm)),
            ),
            SubsReg { wide, rm, rn, rd } => self.put_difference(
                wide,
                rd,
                self.general(rn),
                self.general(rm),
            ),
            _ => unreachable!(),
        }
    }

    // Logical operations, and the choice between two registers.
    pub(crate) fn combine(&mut self, instr: Instr) -> Step
        requires group { Combines instr }
        ensures { Executes M.TagMemory (effect instr) self.old result self.new }
    {
        match instr {
            AndReg { wide, rm, rn, rd } => self.put(
                wide,
                rd,
                self.number(wide, rn) & self.number(wide, rm),
            ),
            OrrReg { wide, rm, rn, rd } => self.put(
                wide,
                rd,
                self.number(wide, rn) | self.number(wide, rm),
            ),
            EorReg { wide, rm, rn, rd } => self.put(
                wide,
                rd,
                self.number(wide, rn) ^ self.number(wide, rm),
            ),
            Csinc {
                wide,
                rm,
                cond,
                rn,
                rd,
            } => {
                let holds = condition_holds(cond, self.flags);
                let x = self.general(rn);
                let y = self.general(rm);
                self.put(wide, rd, chosen_or_next(holds, wide, x, y))
            }
            _ => unreachable!(),
        }
    }

    // Shifts by a register, and moves of a bitfield.
    pub(crate) fn shift(&mut self, instr: Instr) -> Step
        requires fields { AllFit (encoding instr).fields }
        requires group { Shifts instr }
        ensures { Executes M.TagMemory (effect instr) self.old result self.new }
    {
        match instr {
            Lslv { wide, rm, rn, rd } => self.put(
                wide,
                rd,
                shift_left(wide, self.general(rn), self.general(rm)),
            ),
            Lsrv { wide, rm, rn, rd } => self.put(
                wide,
                rd,
                shift_right(wide, self.general(rn), self.general(rm)),
            ),
            Asrv { wide, rm, rn, rd } => self.put(
                wide,
                rd,
                shift_arithmetic(wide, self.general(rn), self.general(rm)),
            ),
            Sbfm {
                wide,
                immr,
                imms,
                rn,
                rd,
            } => self.put(
                wide,
                rd,
                signed_bitfield(wide, immr, imms, self.general(rn)),
            ),
            Ubfm {
                wide,
                immr,
                imms,
                rn,
                rd,
            } => self.put(
                wide,
                rd,
                unsigned_bitfield(wide, immr, imms, self.general(rn)),
            ),
            _ => unreachable!(),
        }
    }

    // Multiplication and division.
    pub(crate) fn multiply(&mut self, instr: Instr) -> Step
        requires group { Multiplies instr }
        ensures { Executes M.TagMemory (effect instr) self.old result self.new }
    {
        match instr {
            Udiv { wide, rm, rn, rd } => self.put(
                wide,
                rd,
                divide_unsigned(wide, self.general(rn), self.general(rm)),
            ),
            Sdiv { wide, rm, rn, rd } => self.put(
                wide,
                rd,
                divide_signed(wide, self.general(rn), self.general(rm)),
            ),
            Madd {
                wide,
                rm,
                ra,
                rn,
                rd,
            } => {
                let x = self.general(rn);
                let y = self.general(rm);
                self.put(wide, rd, multiply_add(wide, x, y, self.general(ra)))
            }
            Msub {
                wide,
                rm,
                ra,
                rn,
                rd,
            } => {
                let x = self.general(rn);
                let y = self.general(rm);
                self.put(wide, rd, multiply_sub(wide, x, y, self.general(ra)))
            }
            _ => unreachable!(),
        }
    }
}

// What each instruction does, but for the services that reach the outside.
ghost use Rattle.a64_code.specs.Field.{AllFit};
ghost use Rattle.a64_code.specs.Table.{encoding};
ghost use Rattle.a64_code.specs.Effect.{effect};
ghost use Rattle.mte_machine.specs.Groups.{IsQuiet};
ghost use Rattle.mte_machine.specs.Machine.{Executes};

use crate::machine::Machine;
use crate::step::Step;
use a64_code::Instr;
use a64_code::Instr::{
    AddImm, AddReg, Addg, Adrp, AndReg, Asrv, B, BCond, Bl, Cbnz, Cbz, Csinc, EorReg, Irg, Ldg,
    Ldp, Ldr, Ldrb, Ldrh, Ldrsb, Ldrsh, Ldrsw, Lslv, Lsrv, Madd, Movk, Movn, Movz, Msub, Nop,
    OrrReg, Ret, Sbfm, Sdiv, St2g, Stg, Stp, Str, Strb, Strh, Stz2g, Stzg, SubImm, SubReg, Subg,
    SubsImm, SubsReg, Svc, Ubfm, Udiv,
};
use tag_mem::TagMemory;

impl<M: TagMemory> Machine<M> {
    // Carries an instruction out.
    pub(crate) fn carry_out(&mut self, instr: Instr) -> Step
        requires fields { AllFit (encoding instr).fields }
        requires quiet { IsQuiet instr }
        ensures { Executes M.TagMemory (effect instr) self.old result self.new }
    {
        match instr {
            Movz { .. } | Movk { .. } | Movn { .. } | Adrp { .. } => self.move_number(instr),
            AddImm { .. } | SubImm { .. } | SubsImm { .. } => self.add_number(instr),
            AddReg { .. } | SubReg { .. } | SubsReg { .. } => self.add_register(instr),
            AndReg { .. } | OrrReg { .. } | EorReg { .. } | Csinc { .. } => self.combine(instr),
            Lslv { .. } | Lsrv { .. } | Asrv { .. } | Sbfm { .. } | Ubfm { .. } => self.shift(
                instr,
            ),
            Udiv { .. } | Sdiv { .. } | Madd { .. } | Msub { .. } => self.multiply(instr),
            Cbz { .. } | Cbnz { .. } | B { .. } | Bl { .. } | BCond { .. } | Ret => self.go(instr),
            Ldr { .. }
            | Ldrb { .. }
            | Ldrh { .. }
            | Ldrsw { .. }
            | Ldrsb { .. }
            | Ldrsh { .. }
            | Ldp { .. }
            | Ldg { .. } => self.load(instr),
            Str { .. } | Strb { .. } | Strh { .. } | Stp { .. } => self.store(instr),
            Addg { .. } | Subg { .. } | Irg { .. } => self.tag_pointer(instr),
            Stg { .. } | Stzg { .. } | St2g { .. } | Stz2g { .. } => self.tag_granules(instr),
            Nop => self.advance(),
            Svc { .. } => unreachable!(),
        }
    }
}

// Instructions that load and store registers.
ghost use Rattle.std.specs.Prelude.{◌≡◌, ◌<◌, ◌≤◌, ◌*◌, ◌+◌, not, true};
ghost use Rattle.mt_base.specs.Extension.{sign_extend};
ghost use Rattle.a64_code.specs.Shape.{done};
ghost use Rattle.a64_code.specs.Outside.{Outside};
ghost use Rattle.a64_code.specs.Effect.{effect, as_it_is};
ghost use Rattle.a64_code.specs.LoadsAndStores.{behind, beside, is_checked, loads, stores, loads_pair, stores_pair};
ghost use Rattle.mte_machine.specs.Groups.{IsLoad, IsStore};
ghost use Rattle.mte_machine.specs.Written.{base_is_sp, FollowsWrite};
ghost use Rattle.mte_machine.specs.Machine.{state_of, Executes};

use crate::machine::Machine;
use crate::memory::{load, load_pair, store, store_pair};
use crate::step::Step;
use a64_code::Instr::{Ldg, Ldp, Ldr, Ldrb, Ldrh, Ldrsb, Ldrsh, Ldrsw, Stp, Str, Strb, Strh};
use a64_code::{Instr, MachineEnd, Reg};
use mt_base::sext;
use tag_mem::TagMemory;

impl<M: TagMemory> Machine<M> {
    // Loads.
    pub(crate) fn load(&mut self, instr: Instr) -> Step
        requires group { IsLoad instr }
        ensures { Executes M.TagMemory (effect instr) self.old result self.new }
    {
        match instr {
            Ldr {
                wide,
                imm12,
                rn,
                rt,
            } => {
                if wide {
                    self.load_register(8, imm12, rn, rt)
                } else {
                    self.load_register(4, imm12, rn, rt)
                }
            }
            Ldrb { imm12, rn, rt } => self.load_register(1, imm12, rn, rt),
            Ldrh { imm12, rn, rt } => self.load_register(2, imm12, rn, rt),
            Ldrsw { imm12, rn, rt } => self.load_signed(4, imm12, rn, rt),
            Ldrsb { imm12, rn, rt } => self.load_signed(1, imm12, rn, rt),
            Ldrsh { imm12, rn, rt } => self.load_signed(2, imm12, rn, rt),
            Ldp { imm7, rt2, rn, rt } => self.load_two_registers(imm7, rt2, rn, rt),
            Ldg { simm9, rn, rt } => self.load_granule_tag(simm9, rn, rt),
            _ => unreachable!(),
        }
    }

    // Stores.
    pub(crate) fn store(&mut self, instr: Instr) -> Step
        requires group { IsStore instr }
        ensures { Executes M.TagMemory (effect instr) self.old result self.new }
    {
        match instr {
            Str {
                wide,
                imm12,
                rn,
                rt,
            } => {
                if wide {
                    self.store_register(8, imm12, rn, rt)
                } else {
                    self.store_register(4, imm12, rn, rt)
                }
            }
            Strb { imm12, rn, rt } => self.store_register(1, imm12, rn, rt),
            Strh { imm12, rn, rt } => self.store_register(2, imm12, rn, rt),
            Stp { imm7, rt2, rn, rt } => self.store_two_registers(imm7, rt2, rn, rt),
            _ => unreachable!(),
        }
    }

    // LDR, LDRH and LDRB: a number of so many bytes goes into a register.
    #[inline(always)]
    pub(crate) fn load_register(&mut self, bytes: u8, imm12: u16, rn: Reg, rt: Reg) -> Step
        requires some { 0 < bytes }
        requires few { bytes ≤ 8 }
        ensures { Executes M.TagMemory (λ s. done (loads base_is_sp bytes as_it_is imm12 rn rt s) s) self.old result self.new }
    {
        let pointer = self.behind(rn, bytes, imm12);
        match load(&self.memory, pointer, usize::from(bytes), is_checked(rn)) {
            Ok(number) => self.put(true, rt, number),
            Err(end) => Step::Ended(end),
        }
    }

    // LDRSW, LDRSH and LDRSB: a signed number of so many bytes goes into a register.
    pub(crate) fn load_signed(&mut self, bytes: u8, imm12: u16, rn: Reg, rt: Reg) -> Step
        requires some { 0 < bytes }
        requires few { bytes ≤ 8 }
        ensures { Executes M.TagMemory (λ s. done (loads base_is_sp bytes (sign_extend (8 * bytes) 64) imm12 rn rt s) s) self.old result
            self.new }
    {
        let pointer = self.behind(rn, bytes, imm12);
        match load(&self.memory, pointer, usize::from(bytes), is_checked(rn)) {
            Ok(number) => self.put(true, rt, sext(number, 8 * bytes)),
            Err(end) => Step::Ended(end),
        }
    }

    // STR, STRH and STRB: the low bytes of a register go to memory.
    #[inline(always)]
    pub(crate) fn store_register(&mut self, bytes: u8, imm12: u16, rn: Reg, rt: Reg) -> Step
        requires some { 0 < bytes }
        requires few { bytes ≤ 8 }
        ensures { Executes M.TagMemory (λ s. done (stores base_is_sp bytes imm12 rn rt s) s) self.old result self.new }
    {
        let pointer = self.behind(rn, bytes, imm12);
        let value = self.general(rt);
        let answer = store(
            &mut self.memory,
            pointer,
            usize::from(bytes),
            value,
            is_checked(rn),
        );
        self.go_on(answer)
    }

    // LDP: two numbers of 8 bytes go into registers, into Rt first.
    pub(crate) fn load_two_registers(&mut self, imm7: u8, rt2: Reg, rn: Reg, rt: Reg) -> Step
        ensures { Executes M.TagMemory (λ s. done (loads_pair base_is_sp imm7 rt2 rn rt s) s) self.old result self.new }
    {
        let pointer = self.beside(rn, 7, 8, u16::from(imm7));
        match load_pair(&self.memory, pointer, is_checked(rn)) {
            Ok((first, second)) => {
                self.set_general(rt, first);
                self.put(true, rt2, second)
            }
            Err(end) => Step::Ended(end),
        }
    }

    // STP: two registers go to memory.
    pub(crate) fn store_two_registers(&mut self, imm7: u8, rt2: Reg, rn: Reg, rt: Reg) -> Step
        ensures { Executes M.TagMemory (λ s. done (stores_pair base_is_sp imm7 rt2 rn rt s) s) self.old result self.new }
    {
        let pointer = self.beside(rn, 7, 8, u16::from(imm7));
        let first = self.general(rt);
        let second = self.general(rt2);
        let answer = store_pair(&mut self.memory, pointer, first, second, is_checked(rn));
        self.go_on(answer)
    }

    // A base and an unsigned offset in units of so many bytes.
    fn behind(&self, base: Reg, unit: u8, offset: u16) -> u64
        ensures { (w : Outside) → result ≡ behind base_is_sp unit offset base (state_of M.TagMemory self.now w) }
    {
        let distance = u64::from(offset) * u64::from(unit);
        self.general_or_sp(base).wrapping_add(distance)
    }

    // A base and an offset in units of so many bytes, whose lower `bits` bits are a signed number.
    pub(crate) fn beside(&self, base: Reg, bits: u8, unit: u8, offset: u16) -> u64
        requires least { 1 ≤ bits }
        requires most { bits ≤ 64 }
        ensures { (w : Outside) → result ≡ beside base_is_sp bits unit offset base (state_of M.TagMemory self.now w) }
    {
        let distance = sext(u64::from(offset), bits).wrapping_mul(u64::from(unit));
        self.general_or_sp(base).wrapping_add(distance)
    }

    // Goes on to the next instruction, unless an access that wrote was refused.
    pub(crate) fn go_on(&mut self, answer: Result<(), MachineEnd>) -> Step
        ensures { (w : Outside) → FollowsWrite answer (state_of M.TagMemory self.old w) result (state_of M.TagMemory self.new w) }
    {
        match answer {
            Ok(()) => self.advance(),
            Err(end) => Step::Ended(end),
        }
    }
}

// Whether an access is judged by its tag: all are but those whose base is the stack pointer.
fn is_checked(base: Reg) -> bool
    ensures { result ≡ is_checked base_is_sp base }
{
    base.0 < 31
}

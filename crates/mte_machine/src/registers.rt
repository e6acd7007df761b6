// How instructions read and write the registers.
ghost use Rattle.std.specs.Prelude.{◌≡◌, ◌^◌, ◌<◌, true, false};
ghost use Rattle.a64_code.specs.Shape.{done};
ghost use Rattle.a64_code.specs.Outside.{Outside};
ghost use Rattle.a64_code.specs.State.{general, general_or_sp, of_width, with_general, with_general_or_sp, advanced};
ghost use Rattle.a64_code.specs.Results.{puts};
ghost use Rattle.mte_machine.specs.Machine.{state_of, Executes};

use crate::machine::Machine;
use crate::step::Step;
use a64_alu::of_width;
use a64_code::Reg;
use tag_mem::TagMemory;

impl<M: TagMemory> Machine<M> {
    // A general register, where the number 31 reads as zero.
    pub(crate) fn general(&self, register: Reg) -> u64
        ensures { (w : Outside) → result ≡ general (state_of M.TagMemory self.now w) register }
    {
        self.registers
            .get(usize::from(register.0))
            .copied()
            .unwrap_or(0)
    }

    // A general register, or the stack pointer where the number is 31.
    pub(crate) fn general_or_sp(&self, register: Reg) -> u64
        ensures { (w : Outside) → result ≡ general_or_sp (state_of M.TagMemory self.now w) register }
    {
        self.registers
            .get(usize::from(register.0))
            .copied()
            .unwrap_or(self.sp)
    }

    // Writes a general register, where a write to the number 31 is dropped.
    pub(crate) fn set_general(&mut self, register: Reg, value: u64)
        ensures { (w : Outside) → state_of M.TagMemory self.new w ≡ with_general register value (state_of M.TagMemory self.old w) }
    {
        if register.0 < 31 {
            self.registers[usize::from(register.0)] = value;
        }
    }

    // Writes a general register, or the stack pointer where the number is 31.
    pub(crate) fn set_general_or_sp(&mut self, register: Reg, value: u64)
        ensures { (w : Outside) → state_of M.TagMemory self.new w ≡ with_general_or_sp register value (state_of M.TagMemory self.old w) }
    {
        if register.0 < 31 {
            self.registers[usize::from(register.0)] = value;
        } else {
            self.sp = value;
        }
    }

    // Goes on to the next instruction.
    pub(crate) fn advance(&mut self) -> Step
        ensures state { (w : Outside) → state_of M.TagMemory self.new w ≡ advanced (state_of M.TagMemory self.old w) }
        ensures ran { result ≡ Step.Ran }
    {
        self.pc = self.pc.wrapping_add(4);
        Step::Ran
    }

    // Puts the result of an instruction into a general register, where one of 32 bits clears the upper half, and goes on.
    pub(crate) fn put(&mut self, wide: bool, register: Reg, value: u64) -> Step
        ensures { Executes M.TagMemory (done (puts false wide register value)) self.old result self.new }
    {
        self.set_general(register, of_width(wide, value));
        self.advance()
    }

    // The same where the number 31 is the stack pointer.
    pub(crate) fn put_or_sp(&mut self, wide: bool, register: Reg, value: u64) -> Step
        ensures { Executes M.TagMemory (done (puts true wide register value)) self.old result self.new }
    {
        self.set_general_or_sp(register, of_width(wide, value));
        self.advance()
    }
}

// What instructions compute that the crate of arithmetic does not have as one function.
ghost use Rattle.std.specs.Prelude.{◌≡◌, false};
ghost use Rattle.a64_alu.specs.Width.{width, of_width};
ghost use Rattle.a64_code.specs.Shape.{done};
ghost use Rattle.a64_code.specs.Outside.{Outside};
ghost use Rattle.a64_code.specs.Results.{subtracts, number, chosen_or_next};
ghost use Rattle.mte_machine.specs.Machine.{state_of, Executes};

use crate::machine::Machine;
use crate::step::Step;
use a64_alu::{add, of_width, subtract_with_flags};
use a64_code::Reg;
use tag_mem::TagMemory;

impl<M: TagMemory> Machine<M> {
    // The number of a general register that an instruction reads: all of it, or the lower 32 bits.
    pub(crate) fn number(&self, wide: bool, register: Reg) -> u64
        ensures { (w : Outside) → result ≡ number false wide (state_of M.TagMemory self.now w) register }
    {
        of_width(wide, self.general(register))
    }

    // Puts a difference into a general register, sets the flags by it, and goes on.
    pub(crate) fn put_difference(&mut self, wide: bool, register: Reg, x: u64, y: u64) -> Step
        ensures { Executes M.TagMemory (done (subtracts false wide register (of_width wide x) (of_width wide y))) self.old result self.new }
    {
        let (difference, flags) = subtract_with_flags(wide, x, y);
        self.flags = flags;
        self.put(wide, register, difference)
    }
}

// One number where a condition holds, else the successor of the other.
pub(crate) fn chosen_or_next(holds: bool, wide: bool, x: u64, y: u64) -> u64
    ensures { result ≡ chosen_or_next holds (width wide) (of_width wide x) (of_width wide y) }
{
    if holds {
        of_width(wide, x)
    } else {
        add(wide, y, 1)
    }
}

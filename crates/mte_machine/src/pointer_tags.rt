// Instructions that compute the tag of a pointer.
ghost use Rattle.std.specs.Prelude.{◌≡◌, ◌≤◌, ℕ, true};
ghost use Rattle.mt_base.specs.Tags.{next_tag, zero_excluded};
ghost use Rattle.mt_base.specs.Pointers.{tag_of, with_tag};
ghost use Rattle.a64_code.specs.Shape.{done};
ghost use Rattle.a64_code.specs.Outside.{Outside};
ghost use Rattle.a64_code.specs.State.{with_choice_drawn};
ghost use Rattle.a64_code.specs.Effect.{effect};
ghost use Rattle.a64_code.specs.declared.instr.Instr.TheVariants.{Irg};
ghost use Rattle.a64_code.specs.TagInstructions.{next_choice};
ghost use Rattle.a64_code.specs.Field.{AllFit};
ghost use Rattle.a64_code.specs.Table.{encoding};
ghost use Rattle.a64_code.specs.Results.{puts};
ghost use Rattle.mte_machine.specs.Groups.{TagsPointer};
ghost use Rattle.mte_machine.specs.Machine.{state_of, Executes};

use crate::machine::Machine;
use crate::step::Step;
use a64_alu::{add, subtract};
use a64_code::Instr::{Addg, Irg, Subg};
use a64_code::{Instr, Reg};
use mt_base::{Exclude, Tag, next_tag, tag_of, with_tag};
use tag_mem::TagMemory;

/// The mask that excludes the tag 0, which belongs to untagged memory.
const ZERO: u16 = 1;

impl<M: TagMemory> Machine<M> {
    // Tags of pointers.
    pub(crate) fn tag_pointer(&mut self, instr: Instr) -> Step
        requires fields { AllFit (encoding instr).fields }
        requires group { TagsPointer instr }
        ensures { Executes M.TagMemory (effect instr) self.old result self.new }
    {
        match instr {
            Addg {
                uimm6,
                uimm4,
                rn,
                rd,
            } => {
                let pointer = self.general_or_sp(rn);
                let address = add(true, pointer, 16 * u64::from(uimm6));
                self.put_with_next_tag(rd, address, pointer, uimm4)
            }
            Subg {
                uimm6,
                uimm4,
                rn,
                rd,
            } => {
                let pointer = self.general_or_sp(rn);
                let address = subtract(true, pointer, 16 * u64::from(uimm6));
                self.put_with_next_tag(rd, address, pointer, uimm4)
            }
            Irg { rm, rn, rd } => self.insert_random_tag(rm, rn, rd),
            _ => unreachable!(),
        }
    }

    // Puts an address into a register with the tag at an offset from the tag of a pointer, and goes on: ADDG and SUBG.
    pub(crate) fn put_with_next_tag(
        &mut self,
        register: Reg,
        address: u64,
        pointer: u64,
        offset: u8,
    ) -> Step
        requires { offset ≤ 15 }
        ensures { Executes M.TagMemory
            (done (puts true true register (with_tag address (next_tag (tag_of pointer) offset zero_excluded)))) self.old result self.new }
    {
        let tag = next_tag(tag_of(pointer), offset, Exclude(ZERO));
        self.set_general_or_sp(register, with_tag(address, tag));
        self.advance()
    }

    // IRG: Rn with a random tag that is not excluded.
    pub(crate) fn insert_random_tag(&mut self, rm: Reg, rn: Reg, rd: Reg) -> Step
        ensures { Executes M.TagMemory (effect (Irg rm rn rd)) self.old result self.new }
    {
        let excluded = (self.general(rm) % 65536) as u16 | ZERO;
        let tag = next_tag(self.draw(), 0, Exclude(excluded));
        self.set_general_or_sp(rd, with_tag(self.general_or_sp(rn), tag));
        self.advance()
    }

    // Draws the next choice, round their list.
    fn draw(&mut self) -> Tag
        ensures choice { (w : Outside) → result ≡ next_choice (state_of M.TagMemory self.old w) }
        ensures state { (w : Outside) → state_of M.TagMemory self.new w ≡ with_choice_drawn (state_of M.TagMemory self.old w) }
    {
        let choice = self.choices[self.drawn];
        self.drawn = (self.drawn + 1) % self.choices.len();
        choice
    }
}

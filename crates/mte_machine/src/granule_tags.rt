// Instructions that load and store the tags of granules.
ghost use Rattle.std.specs.Prelude.{◌≡◌};
ghost use Rattle.a64_code.specs.Shape.{done};
ghost use Rattle.a64_code.specs.TagInstructions.{stores_tag, clears};
ghost use Rattle.a64_code.specs.Effect.{effect};
ghost use Rattle.mte_machine.specs.Accesses.{granules};
ghost use Rattle.mte_machine.specs.Written.{each_is_sp};
ghost use Rattle.mte_machine.specs.Groups.{TagsGranules};
ghost use Rattle.mte_machine.specs.Machine.{Executes};

use crate::machine::Machine;
use crate::memory::{clear_granules, load_tag, tag_granules};
use crate::step::Step;
use a64_code::Instr::{St2g, Stg, Stz2g, Stzg};
use a64_code::{Instr, Reg};
use mt_base::{tag_of, with_tag};
use tag_mem::TagMemory;

impl<M: TagMemory> Machine<M> {
    // Stores of tags.
    pub(crate) fn tag_granules(&mut self, instr: Instr) -> Step
        requires group { TagsGranules instr }
        ensures { Executes M.TagMemory (effect instr) self.old result self.new }
    {
        match instr {
            Stg { simm9, rn, rt } => self.store_tags(false, simm9, rn, rt),
            Stzg { simm9, rn, rt } => self.clear(false, simm9, rn, rt),
            St2g { simm9, rn, rt } => self.store_tags(true, simm9, rn, rt),
            Stz2g { simm9, rn, rt } => self.clear(true, simm9, rn, rt),
            _ => unreachable!(),
        }
    }

    // LDG: a register gets the tag of the granule that the address is in.
    pub(crate) fn load_granule_tag(&mut self, simm9: u16, rn: Reg, rt: Reg) -> Step
        ensures { Executes M.TagMemory (effect (Instr.Ldg simm9 rn rt)) self.old result self.new }
    {
        let pointer = self.beside(rn, 9, 16, simm9);
        match load_tag(&self.memory, pointer) {
            Ok(tag) => self.put(true, rt, with_tag(self.general(rt), tag)),
            Err(end) => Step::Ended(end),
        }
    }

    // STG and ST2G: one granule, or two, get the tag of Rt.
    pub(crate) fn store_tags(&mut self, two: bool, simm9: u16, rn: Reg, rt: Reg) -> Step
        ensures { Executes M.TagMemory (λ s. done (stores_tag each_is_sp (granules two) simm9 rn rt s) s) self.old result self.new }
    {
        let pointer = self.beside(rn, 9, 16, simm9);
        let tag = tag_of(self.general_or_sp(rt));
        let answer = tag_granules(&mut self.memory, pointer, two, tag);
        self.go_on(answer)
    }

    // STZG and STZ2G: they get it and zeros for bytes.
    pub(crate) fn clear(&mut self, two: bool, simm9: u16, rn: Reg, rt: Reg) -> Step
        ensures { Executes M.TagMemory (λ s. done (clears each_is_sp (granules two) simm9 rn rt s) s) self.old result self.new }
    {
        let pointer = self.beside(rn, 9, 16, simm9);
        let tag = tag_of(self.general_or_sp(rt));
        let answer = clear_granules(&mut self.memory, pointer, two, tag);
        self.go_on(answer)
    }
}

// Branches and addresses relative to PC.
ghost use Rattle.std.specs.Prelude.{◌≡◌, ◌≤◌, ◌+◌, ◌*◌, true};
ghost use Rattle.a64_code.specs.Shape.{Branches, BranchesWithLink, link_register, done};
ghost use Rattle.a64_code.specs.Outside.{Outside};
ghost use Rattle.a64_code.specs.State.{general};
ghost use Rattle.a64_code.specs.Branches.{target, page_target};
ghost use Rattle.a64_code.specs.Effect.{effect};
ghost use Rattle.mte_machine.specs.Groups.{GoesElsewhere};
ghost use Rattle.mte_machine.specs.Machine.{state_of, Executes};

use crate::machine::Machine;
use crate::step::Step;
use a64_alu::condition_holds;
use a64_code::Instr::{B, BCond, Bl, Cbnz, Cbz, Ret};
use a64_code::{Instr, Reg};
use mt_base::sext;
use tag_mem::TagMemory;

/// The register in which BL leaves the address to return to.
const LINK: Reg = Reg(30);

impl<M: TagMemory> Machine<M> {
    // Branches.
    pub(crate) fn go(&mut self, instr: Instr) -> Step
        requires group { GoesElsewhere instr }
        ensures { Executes M.TagMemory (effect instr) self.old result self.new }
    {
        match instr {
            Cbz { wide, imm19, rt } => self.branch_if(self.number(wide, rt) == 0, 19, imm19),
            Cbnz { wide, imm19, rt } => self.branch_if(self.number(wide, rt) != 0, 19, imm19),
            B { imm26 } => self.branch(26, imm26),
            Bl { imm26 } => self.branch_with_link(26, imm26),
            BCond { imm19, cond } => self.branch_if(condition_holds(cond, self.flags), 19, imm19),
            Ret => self.branch_to_link(),
            _ => unreachable!(),
        }
    }

    // So many words on from PC, or back: the lower `bits` bits are a signed number.
    fn target(&self, bits: u8, words: u32) -> u64
        requires least { 1 ≤ bits }
        requires most { bits ≤ 64 }
        ensures { (w : Outside) → result ≡ target bits words (state_of M.TagMemory self.now w) }
    {
        let distance = sext(u64::from(words), bits).wrapping_mul(4);
        self.pc.wrapping_add(distance)
    }

    // Takes a branch.
    pub(crate) fn branch(&mut self, bits: u8, words: u32) -> Step
        requires least { 1 ≤ bits }
        requires most { bits ≤ 64 }
        ensures { Executes M.TagMemory (λ s. done (Branches true (target bits words s)) s) self.old result self.new }
    {
        self.pc = self.target(bits, words);
        Step::Ran
    }

    // Takes a branch where its test holds.
    pub(crate) fn branch_if(&mut self, taken: bool, bits: u8, words: u32) -> Step
        requires least { 1 ≤ bits }
        requires most { bits ≤ 64 }
        ensures { Executes M.TagMemory (λ s. done (Branches taken (target bits words s)) s) self.old result self.new }
    {
        if taken {
            self.branch(bits, words)
        } else {
            self.advance()
        }
    }

    // Takes a branch, and leaves the address of the instruction behind it in X30.
    pub(crate) fn branch_with_link(&mut self, bits: u8, words: u32) -> Step
        requires least { 1 ≤ bits }
        requires most { bits ≤ 64 }
        ensures { Executes M.TagMemory (λ s. done (BranchesWithLink (target bits words s)) s) self.old result self.new }
    {
        let target = self.target(bits, words);
        self.set_general(LINK, self.pc.wrapping_add(4));
        self.pc = target;
        Step::Ran
    }

    // Goes to the address in X30.
    pub(crate) fn branch_to_link(&mut self) -> Step
        ensures { Executes M.TagMemory (λ s. done (Branches true (general s link_register)) s) self.old result self.new }
    {
        self.pc = self.general(LINK);
        Step::Ran
    }

    // The address of the page of PC, and so many pages on or back: the 21 bits are a signed number.
    pub(crate) fn page_target(&self, immhi: u32, immlo: u8) -> u64
        ensures { (w : Outside) → result ≡ page_target (immhi * 4 + immlo) (state_of M.TagMemory self.now w) }
    {
        let pages = sext(u64::from(immhi) * 4 + u64::from(immlo), 21);
        (self.pc / 4096 * 4096).wrapping_add(pages.wrapping_mul(4096))
    }
}

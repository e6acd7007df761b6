// The machine and how it starts.
ghost use Rattle.std.specs.Prelude.{◌≡◌, ◌≢◌, ◌<◌, [], vec_len};

use crate::decoder::Decoder;
use crate::step::Step;
use a64_alu::Flags;
use a64_code::{Instr, MachineEnd, decode};
use mt_base::Tag;
use mt_outside::{Sink, Source};
use tag_mem::TagMemory;

/// The machine: the registers X0 to X30, the stack pointer, the address of the next instruction, the condition flags,
/// the memory, and the random tags that it draws in turn.
#[derive(Drop)]
pub struct Machine<M> {
    pub(crate) registers: [u64; 31],
    pub(crate) sp: u64,
    pub(crate) pc: u64,
    pub(crate) flags: Flags,
    pub(crate) memory: M,
    pub(crate) choices: Vec<Tag>,
    /// How many choices were drawn, modulo their number.
    pub(crate) drawn: usize,
    ghost one_to_draw: { drawn < vec_len choices },
}

impl<M: TagMemory> Machine<M> {
    ghost use Rattle.a64_code.specs.Outside.{Outside};
    ghost use Rattle.std.specs.Prelude.{IfSome};
    ghost use Rattle.a64_code.specs.Field.{AllFit};
    ghost use Rattle.a64_code.specs.Table.{encoding};
    ghost use Rattle.a64_code.specs.Step.{fetched, step};
    ghost use Rattle.mte_machine.specs.Machine.{state_of, initial_state};
    ghost use Rattle.mte_machine.specs.Objects.{objects};
    ghost use Rattle.mte_machine.specs.Answers.{StepAnswers, RunAnswers};

    /// A machine with this memory, whose registers and flags are all zero. The choices, of which there is one at least,
    /// are the random tags that it draws in turn, and so many were drawn before, which counts modulo their number.
    pub fn new(memory: M, pc: u64, sp: u64, choices: Vec<Tag>, drawn: u64) -> Machine<M>
        requires { choices.items ≢ [] }
        ensures state { (w : Outside) → state_of M.TagMemory result w ≡ initial_state M.TagMemory memory pc sp choices.items drawn w }
    {
        let drawn = (drawn % choices.len() as u64) as usize;
        Machine {
            registers: [0; 31],
            sp,
            pc,
            flags: Flags {
                negative: false,
                zero: false,
                carry: false,
                overflow: false,
            },
            memory,
            choices,
            drawn,
        }
    }

    /// Executes one instruction. A step that ends the run leaves the machine as it was.
    pub fn step<S: Source, K: Sink>(&mut self, source: &mut S, sink: &mut K) -> Step
        ensures { StepAnswers
            (λ w. step (state_of M.TagMemory self.old w)) (λ w. state_of M.TagMemory self.old w) (λ w. state_of M.TagMemory self.new w)
            (objects S.Source K.Sink source.old sink.old) (objects S.Source K.Sink source.new sink.new) result }
    {
        let found = self.fetch();
        self.execute(found, source, sink)
    }

    /// Executes instructions until one of them ends the run, at most `n` of them.
    pub fn run<S: Source, K: Sink>(&mut self, source: &mut S, sink: &mut K, n: u64) -> MachineEnd
        ensures { RunAnswers n (λ w. state_of M.TagMemory self.old w) (λ w. state_of M.TagMemory self.new w)
            (objects S.Source K.Sink source.old sink.old) (objects S.Source K.Sink source.new sink.new) result }
    {
        let mut decoder = Decoder::new();
        for ran in 0..n {
            let found = self.fetch_by(&mut decoder);
            if let Step::Ended(end) = self.execute(found, source, sink) {
                return end;
            }
        }
        MachineEnd::OutOfSteps
    }

    // The instruction at PC.
    fn fetch(&self) -> Option<Instr>
        ensures instr { (w : Outside) → result ≡ fetched (state_of M.TagMemory self.now w) }
        ensures fields { IfSome result (λ instr. AllFit (encoding instr).fields) }
    {
        decode(self.memory.fetch(self.pc)?)
    }

    // The same by a decoder.
    #[inline(always)]
    fn fetch_by(&self, decoder: &mut Decoder) -> Option<Instr>
        ensures instr { (w : Outside) → result ≡ fetched (state_of M.TagMemory self.now w) }
        ensures fields { IfSome result (λ instr. AllFit (encoding instr).fields) }
    {
        decoder.decode(self.memory.fetch(self.pc)?)
    }

    // Executes the instruction that was fetched at PC.
    #[inline(always)]
    fn execute<S: Source, K: Sink>(
        &mut self,
        found: Option<Instr>,
        source: &mut S,
        sink: &mut K,
    ) -> Step
        requires instr { (w : Outside) → found ≡ fetched (state_of M.TagMemory self.old w) }
        requires fields { IfSome found (λ instr. AllFit (encoding instr).fields) }
        ensures { StepAnswers
            (λ w. step (state_of M.TagMemory self.old w)) (λ w. state_of M.TagMemory self.old w) (λ w. state_of M.TagMemory self.new w)
            (objects S.Source K.Sink source.old sink.old) (objects S.Source K.Sink source.new sink.new) result }
    {
        match found {
            None => Step::Ended(MachineEnd::BadCode { at: self.pc }),
            Some(Instr::Svc { imm16 }) => self.serve(imm16, source, sink),
            Some(instr) => self.carry_out(instr),
        }
    }
}

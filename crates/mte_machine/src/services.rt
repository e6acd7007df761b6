// The services of the machine, which a program asks for by SVC.
ghost use Rattle.std.specs.Prelude.{◌≡◌};
ghost use Rattle.a64_code.specs.Outside.{Outside};
ghost use Rattle.a64_code.specs.Services.{service, low_byte};
ghost use Rattle.mte_machine.specs.Machine.{state_of};
ghost use Rattle.mte_machine.specs.Objects.{objects};
ghost use Rattle.mte_machine.specs.Answers.{StepAnswers};

use crate::machine::Machine;
use crate::step::Step;
use a64_code::{MachineEnd, Reg};
use mt_outside::{NextAnswer, PutAnswer, Sink, Source};
use tag_mem::TagMemory;

/// Puts the low byte of X0.
const PUT: u16 = 1;
/// Takes the next byte into X0, or all ones at the end.
const NEXT: u16 = 2;
/// Ends the program with the low byte of X0.
const EXIT: u16 = 3;
/// Tells a division by zero.
const DIVIDE: u16 = 4;

/// The register that a service reads and writes.
const X0: Reg = Reg(0);

impl<M: TagMemory> Machine<M> {
    // Does what a service is to do.
    pub(crate) fn serve<S: Source, K: Sink>(
        &mut self,
        number: u16,
        source: &mut S,
        sink: &mut K,
    ) -> Step
        ensures { StepAnswers
            (λ w. service number (state_of M.TagMemory self.old w)) (λ w. state_of M.TagMemory self.old w)
            (λ w. state_of M.TagMemory self.new w)
            (objects S.Source K.Sink source.old sink.old) (objects S.Source K.Sink source.new sink.new) result }
    {
        match number {
            PUT => {
                let byte = self.low_byte();
                match sink.put(&[byte]) {
                    PutAnswer::Done => self.put(true, X0, u64::from(byte)),
                    PutAnswer::Failed => Step::Ended(MachineEnd::OutputFault),
                }
            }
            NEXT => match source.next() {
                NextAnswer::Byte(byte) => self.put(true, X0, u64::from(byte)),
                NextAnswer::End => self.put(true, X0, u64::MAX),
                NextAnswer::Failed => Step::Ended(MachineEnd::InputFault),
            },
            EXIT => Step::Ended(MachineEnd::Exited(self.low_byte())),
            DIVIDE => Step::Ended(MachineEnd::Divide),
            _ => Step::Ended(MachineEnd::BadCode { at: self.pc }),
        }
    }

    // The low byte of X0.
    fn low_byte(&self) -> u8
        ensures { (w : Outside) → result ≡ low_byte (state_of M.TagMemory self.now w) }
    {
        (self.registers[0] & 0xff) as u8
    }
}

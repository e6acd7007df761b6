//! What a program means, computed.

ghost use Rattle.std.specs.Prelude.{◌≡◌, ◌≤◌, ℕ, List, Option, Some, Err, IfOk, length};
ghost use Rattle.block_meaning.specs.Meaning as spec;
ghost use Rattle.block_meaning.specs.Meaning.{Meaning, Outcome, outcome_of};
ghost use Rattle.block_meaning.specs.Running.{Program};
ghost use Rattle.mean_machine.specs.Steps as machine;
ghost use Rattle.mean_program.specs.Answers.{MeanGives, program_of};
ghost use Rattle.mean_program.specs.Held.{Aim, TurnGives};
ghost use Rattle.mean_program.specs.Laws.Turns as law;
ghost use Rattle.mean_run.specs.Processes.{Moves};
ghost use Rattle.mean_start.specs.Files.{IsProgram};
ghost use Rattle.mt_outside.specs.Told.{Rose};

use crate::end::{MeanEnd, MeanFault};
use crate::turn::{Turn, after, take_turn};
use c_type_base::Typed;
use mean_effects::Ending;
use mean_expressions::Control;
use mean_run::{Process, before, begin};
use mean_start::{File, FrameSizes, files, main_of, opened};
use mt_outside::{Sink, Source};
use std::alloc::{AllocError, Global};

/// A run before its first step, or one that stops there.
#[derive(Drop)]
struct Begun<'a> {
    process: Process<'a>,
    answer: Result<Control<'a>, Ending>,
}

/// The run of a program's files from the call of `main` on. A program without `main` finds no memory.
fn from_main<'a>(
    alloc: Global,
    units: &[Typed],
    files: &'a [File<'a>],
    stack: u64,
    work: u64,
) -> Result<Begun<'a>, AllocError>
    ensures { IfOk result (λ b. (program : Program) (input : List ℕ) → program.units ≡ units.now → IsProgram files.now program
        → stack ≡ program.stack → Moves b.process (spec.before program input work) b.answer
        (machine.begin program (spec.before program input work))) }
{
    let memory = opened(alloc, files)?;
    let main = main_of(alloc, units)?;
    match main {
        None => Err(AllocError),
        Some(main) => {
            let mut process = before(alloc, files, stack, memory, work);
            let answer = begin(&mut process, main);
            Ok(Begun { process, answer })
        }
    }
}

/// The turns of a run to its end.
fn run<'a, S: Source, K: Sink>(
    p: &mut Process<'a>,
    answer: Result<Control<'a>, Ending>,
    source: &mut S,
    sink: &mut K,
) -> Result<MeanEnd, MeanFault>
    ensures gives { (aim : Aim) → TurnGives aim p.old (law.after answer.entry) (S.Source.told source.old) (K.Sink.told sink.old)
        → MeanGives aim.before (outcome_of aim.result) result (S.Source.told source.new) (K.Sink.told sink.new) }
    ensures input_fault { result ≡ Err MeanFault.InputFault → Rose (S.Source.faults source.old) (S.Source.faults source.new) }
    ensures output_fault { result ≡ Err MeanFault.OutputFault → Rose (K.Sink.faults sink.old) (K.Sink.faults sink.new) }
{
    let mut next = after(answer);
    for _ in 0..u64::MAX {
        match next {
            Turn::Goes(control) => next = take_turn(p, control, source, sink),
            Turn::Ends(end) => return end,
        }
    }
    Err(MeanFault::NoMemory)
}

/// Runs a program (C11 5.1.2.3): its files with the bytes of their functions' frames, over a source and a sink, with a stack of so
/// many bytes and at most so many units of work.
///
/// # Errors
///
/// `InputFault` and `OutputFault` where the source or the sink failed. `NoMemory` where the host has no memory left, or the program runs
/// for more than 2^64 - 1 turns. What was put until then is a prefix of what the program puts.
pub fn mean<S: Source, K: Sink>(
    alloc: Global,
    units: &[Typed],
    frames: &FrameSizes,
    source: &mut S,
    sink: &mut K,
    stack: u64,
    work: u64,
) -> Result<MeanEnd, MeanFault>
    requires { length frames.now.bytes.items ≡ length units.now }
    ensures means { (input taken : List ℕ) → S.Source.told source.old ≡ Some input → K.Sink.told sink.old ≡ Some taken
        → (o : Outcome) → Meaning (program_of units.now frames.now stack) input work o
        → MeanGives taken o result (S.Source.told source.new) (K.Sink.told sink.new) }
    ensures input_fault { result ≡ Err MeanFault.InputFault → Rose (S.Source.faults source.old) (S.Source.faults source.new) }
    ensures output_fault { result ≡ Err MeanFault.OutputFault → Rose (K.Sink.faults sink.old) (K.Sink.faults sink.new) }
{
    match files(alloc, units, frames) {
        Err(_) => Err(MeanFault::NoMemory),
        Ok(files) => match from_main(alloc, units, files.as_slice(), stack, work) {
            Err(_) => Err(MeanFault::NoMemory),
            Ok(begun) => {
                let Begun { process, answer } = begun;
                let mut process = process;
                run(&mut process, answer, source, sink)
            }
        },
    }
}

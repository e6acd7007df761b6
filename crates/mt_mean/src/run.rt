// The run of what sources mean together.
ghost use Rattle.std.specs.Prelude.{◌≡◌, ℕ, List, IfOk, map};
ghost use Rattle.mean_texts.specs.Texts.{AreFilesOf};
ghost use Rattle.mt_answers.specs.Answer.{ended_of};
ghost use Rattle.mt_answers.specs.Each.{names_of};
ghost use Rattle.mt_answers.specs.Seen.{files_seen, seen};
ghost use Rattle.mt_mean.specs.Mean.{MeanAnswers};
ghost use Rattle.mt_mean.specs.Sources.{AreTyped, held_as};
ghost use Rattle.mt_mean.specs.Told.{answer_to_end, answer_to_refusal};
ghost use Rattle.mt_words.specs.Model.{mean_options};
ghost use Rattle.mte_machine.specs.Objects.{objects};

use crate::file::Filing;
use mean_program::{MeanEnd, MeanFault};
use mean_texts::{Files as TypedFiles, MeanRefusal, mean_files};
use mt_answers::{Answer, Undefined, make_each};
use mt_compile::TypedFile;
use mt_outside::{Files, Sink, Source};
use mt_words::MeanOptions;
use mte_machine::MachineEnd;
use std::alloc::{AllocError, Global};

/// Gives the meaning of the sources of these names: runs the program that they are together, over an input and an output.
pub fn mean_sources<F: Files, S: Source, K: Sink>(
    alloc: Global,
    names: &[&str],
    options: &MeanOptions,
    files: &mut F,
    input: &mut S,
    out: &mut K,
) -> Answer
    ensures { MeanAnswers (names_of names.now) (mean_options options.now)
        (seen (files_seen F.Files files.old) (objects S.Source K.Sink input.old out.old))
        (seen (files_seen F.Files files.new) (objects S.Source K.Sink input.new out.new)) (ended_of result) }
{
    let typed = match make_each(alloc, &Filing, names, files) {
        Ok(typed) => typed,
        Err(answer) => return answer,
    };
    let sources = match side_by_side(alloc, typed) {
        Ok(sources) => sources,
        Err(_) => return Answer::NoMemory,
    };
    match mean_files(alloc, &sources, input, out, options.stack, options.work) {
        Ok(end) => answer_to_end(end),
        Err(refusal) => answer_to_refusal(refusal),
    }
}

// The typed files of sources, as their link and their meaning take them.
fn side_by_side(alloc: Global, typed: Vec<TypedFile>) -> Result<TypedFiles, AllocError>
    ensures { IfOk result (λ files. (texts : List (List ℕ)) → AreTyped texts (map held_as typed.items) → AreFilesOf texts files) }
{
    let mut files = TypedFiles::new(alloc);
    for file in typed {
        files.push(file)?;
    }
    Ok(files)
}

// What is answered to the end of a program's run.
fn answer_to_end(end: MeanEnd) -> Answer
    ensures { result ≡ answer_to_end end }
{
    match end {
        MeanEnd::Done(status) => Answer::Ran(MachineEnd::Exited(status)),
        MeanEnd::Divide => Answer::Ran(MachineEnd::Divide),
        MeanEnd::Deep => Answer::Ran(MachineEnd::StackFault),
        MeanEnd::More => Answer::Ran(MachineEnd::OutOfSteps),
        MeanEnd::Undefined { why, file, span } => Answer::Undefined {
            file,
            place: span.start,
            why: Undefined { reason: why },
        },
    }
}

// What is answered where typed files mean nothing, or their run failed.
fn answer_to_refusal(refusal: MeanRefusal) -> Answer
    ensures { result ≡ answer_to_refusal refusal }
{
    match refusal {
        MeanRefusal::Link(refusal) => Answer::of_link(refusal),
        MeanRefusal::Fault(MeanFault::InputFault) => Answer::Ran(MachineEnd::InputFault),
        MeanRefusal::Fault(MeanFault::OutputFault) => Answer::Ran(MachineEnd::OutputFault),
        MeanRefusal::Fault(MeanFault::NoMemory) | MeanRefusal::NoMemory => Answer::NoMemory,
        // Each file has been typed, so no text is refused any more.
        MeanRefusal::Compile { .. } => Answer::NoMemory,
    }
}

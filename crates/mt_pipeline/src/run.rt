// The command `run`.
ghost use Rattle.mte_machine.specs.Objects.{objects};
ghost use Rattle.mt_answers.specs.Answer.{ended_of};
ghost use Rattle.mt_answers.specs.Seen.{files_seen, seen};
ghost use Rattle.mt_pipeline.specs.RunFile.{RunAnswers};
ghost use Rattle.mt_words.specs.Laws.Formed.{IsRunFormed};
ghost use Rattle.mt_words.specs.Model.{run_options};

use crate::runner::run_image;
use mt_answers::{Answer, read_file};
use mt_outside::{Files, Sink, Source};
use mt_words::RunOptions;
use std::alloc::Global;

/// Loads an image and runs it.
pub fn run_file<F: Files, S: Source, K: Sink>(
    alloc: Global,
    name: &str,
    options: &RunOptions,
    files: &mut F,
    input: &mut S,
    out: &mut K,
) -> Answer
    requires { IsRunFormed (run_options options.now) }
    ensures { RunAnswers name.now (run_options options.now)
        (seen (files_seen F.Files files.old) (objects S.Source K.Sink input.old out.old))
        (seen (files_seen F.Files files.new) (objects S.Source K.Sink input.new out.new)) (ended_of result) }
{
    let bytes = match read_file(alloc, 0, name, files) {
        Ok(bytes) => bytes,
        Err(answer) => return answer,
    };
    match run_image(
        alloc,
        &bytes,
        &options.choices,
        options.stack,
        options.steps,
        input,
        out,
    ) {
        Ok(end) => Answer::Ran(end),
        Err(refusal) => refusal.answer(),
    }
}

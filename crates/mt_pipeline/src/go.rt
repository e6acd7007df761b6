// The command `go`.
ghost use Rattle.mte_machine.specs.Objects.{objects};
ghost use Rattle.mt_answers.specs.Answer.{ended_of};
ghost use Rattle.mt_answers.specs.Each.{names_of};
ghost use Rattle.mt_answers.specs.Seen.{files_seen, seen};
ghost use Rattle.mt_pipeline.specs.Go.{GoAnswers};
ghost use Rattle.mt_words.specs.Laws.Formed.{IsRunFormed};
ghost use Rattle.mt_words.specs.Model.{run_options};

use crate::runner::run_parts;
use crate::sources::build_files;
use mt_answers::Answer;
use mt_outside::{Files, Sink, Source};
use mt_words::RunOptions;
use std::alloc::Global;

/// Builds sources in memory and runs the image.
pub fn go<F: Files, S: Source, K: Sink>(
    alloc: Global,
    names: &[&str],
    options: &RunOptions,
    files: &mut F,
    input: &mut S,
    out: &mut K,
) -> Answer
    requires { IsRunFormed (run_options options.now) }
    ensures { GoAnswers (names_of names.now) (run_options options.now)
        (seen (files_seen F.Files files.old) (objects S.Source K.Sink input.old out.old))
        (seen (files_seen F.Files files.new) (objects S.Source K.Sink input.new out.new)) (ended_of result) }
{
    let parts = match build_files(alloc, names, files) {
        Ok(parts) => parts,
        Err(answer) => return answer,
    };
    match run_parts(
        alloc,
        &parts,
        &options.choices,
        options.stack,
        options.steps,
        input,
        out,
    ) {
        Ok(end) => Answer::Ran(end),
        // An image that was built starts, so memory was wanting.
        Err(_) => Answer::NoMemory,
    }
}

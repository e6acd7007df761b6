// The command `plan`.
ghost use Rattle.mt_answers.specs.Answer.{ended_of};
ghost use Rattle.mt_pipeline.specs.Plan.{Plans};
ghost use Rattle.mt_answers.specs.Put.{output_seen, with_output};
ghost use Rattle.mt_answers.specs.Seen.{files_seen};

use mt_answers::{Answer, put_bytes, read_file};
use mt_compile::plan_of;
use mt_outside::{Files, Sink};
use std::alloc::Global;

/// Prints the frames of the functions of a source.
pub fn plan_file<F: Files, K: Sink>(alloc: Global, file: &str, files: &mut F, out: &mut K) -> Answer
    ensures { Plans file.now (with_output (files_seen F.Files files.old) (output_seen K.Sink out.old))
        (with_output (files_seen F.Files files.new) (output_seen K.Sink out.new)) (ended_of result) }
{
    let bytes = match read_file(alloc, 0, file, files) {
        Ok(bytes) => bytes,
        Err(answer) => return answer,
    };
    match plan_of(alloc, &bytes) {
        Ok(lines) => put_bytes(&lines, out),
        Err(refused) => Answer::of_source(0, refused),
    }
}

// The top call.
ghost use Rattle.std.specs.Prelude.{◌≡◌, ◌≢◌, map};
ghost use Rattle.std.specs.String.{string_bytes};
ghost use Rattle.mte_machine.specs.Objects.{objects};
ghost use Rattle.mt_answers.specs.Answer.{ended_of};
ghost use Rattle.mt_answers.specs.Seen.{seen, files_seen};
ghost use Rattle.mt_answers.specs.Status.{HasNoLine, ends, status_of};
ghost use Rattle.mt_words.specs.HasJob.{HasJob, HasNoJob};
ghost use Rattle.mt_words.specs.Jobs.{Job as Asked};
ghost use Rattle.mt_words.specs.Laws.Formed.{IsFormed};
ghost use Rattle.mt_words.specs.Model.{job_is};
ghost use Rattle.mt_pipeline.specs.Answers.{Answers};
ghost use Rattle.mt_pipeline.specs.NoWords.{why_without_words};
ghost use Rattle.mt_pipeline.specs.Usage.{UsageAnswers};

use crate::dump::dump_file;
use crate::go::go;
use crate::plan::plan_file;
use crate::run::run_file;
use crate::write::write_built;
use mt_answers::{Answer, Ended, Why, finish};
use mt_link::write_linked;
use mt_mean::mean_sources;
use mt_outside::{Files, Sink, Source};
use mt_words::{Job, job_of};
use std::alloc::Global;

/// Does what the words after the program's name ask for. The program reads `input` and writes `out`; a line on `err`
/// says why the program gave no status of its own.
pub fn drive<F: Files, S: Source, K: Sink, E: Sink>(
    alloc: Global,
    words: &[String],
    files: &mut F,
    input: &mut S,
    out: &mut K,
    err: &mut E,
) -> Ended
    ensures answers { (job : Asked) → HasJob (map string_bytes words.now) job →
        Answers job (seen (files_seen F.Files files.old) (objects S.Source K.Sink input.old out.old))
        (seen (files_seen F.Files files.new) (objects S.Source K.Sink input.new out.new)) result }
    ensures usage { result.why ≡ Why.Usage → HasNoJob (map string_bytes words.now) }
    ensures no_job { HasNoJob (map string_bytes words.now) →
        UsageAnswers (seen (files_seen F.Files files.old) (objects S.Source K.Sink input.old out.old))
        (seen (files_seen F.Files files.new) (objects S.Source K.Sink input.new out.new)) result }

    ensures status { result.status ≡ status_of result.status result.why }
    ensures quiet { HasNoLine result.why → err.new ≡ err.old }
{
    let found = match job_of(alloc, words) {
        Ok(found) => found,
        Err(_) => return finish(err, &[], Answer::NoMemory),
    };
    match found {
        Some(job) => finish_job(alloc, &job, files, input, out, err),
        None => finish(err, &[], Answer::Usage),
    }
}

// Does this job.
fn finish_job<F: Files, S: Source, K: Sink, E: Sink>(
    alloc: Global,
    job: &Job<'_>,
    files: &mut F,
    input: &mut S,
    out: &mut K,
    err: &mut E,
) -> Ended
    requires { IsFormed (job_is job.now) }
    ensures answers { Answers (job_is job.now) (seen (files_seen F.Files files.old) (objects S.Source K.Sink input.old out.old))
        (seen (files_seen F.Files files.new) (objects S.Source K.Sink input.new out.new)) result }
    ensures usage { result.why ≢ Why.Usage }
    ensures status { result.status ≡ status_of result.status result.why }
    ensures quiet { HasNoLine result.why → err.new ≡ err.old }
{
    match job {
        Job::Go {
            files: names,
            options,
        } => finish(err, names, go(alloc, names, options, files, input, out)),
        Job::Build {
            files: names,
            out: image,
        } => finish_image(err, names, image, write_built(alloc, names, image, files)),
        Job::Link {
            files: names,
            out: image,
        } => finish_image(err, names, image, write_linked(alloc, names, image, files)),
        Job::Run { image, options } => {
            finish(
                err,
                &[*image],
                run_file(alloc, image, options, files, input, out),
            )
        }
        Job::Dump { file } => finish(err, &[*file], dump_file(alloc, file, files, out)),
        Job::Plan { file } => finish(err, &[*file], plan_file(alloc, file, files, out)),
        Job::Mean {
            files: names,
            options,
        } => finish(
            err,
            names,
            mean_sources(alloc, names, options, files, input, out),
        ),
    }
}

// The same of an answer of `build` or `link`, whose line names the image where it could not be written.
fn finish_image<E: Sink>(err: &mut E, names: &[&str], image: &str, answer: Answer) -> Ended
    ensures ended { result ≡ ended_of answer }
    ensures status { result.status ≡ status_of result.status result.why }
    ensures quiet { HasNoLine result.why → err.new ≡ err.old }
{
    match answer {
        Answer::WriteFault { .. } => finish(err, &[image], answer),
        _ => finish(err, names, answer),
    }
}

/// Why the words after the program's name could not be had.
#[derive(Clone, Copy)]
pub enum NoWords {
    /// They are no text.
    NotText,
    /// Want of memory.
    NoMemory,
}

/// What is answered where the words after the program's name could not be had.
pub fn end_without_words<E: Sink>(err: &mut E, cause: NoWords) -> Ended
    ensures { result ≡ ends (why_without_words cause) }
{
    match cause {
        NoWords::NotText => finish(err, &[], Answer::Usage),
        NoWords::NoMemory => finish(err, &[], Answer::NoMemory),
    }
}

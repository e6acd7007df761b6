// From the words to the job.
ghost use Rattle.std.specs.Prelude.{◌≡◌, IfOk, IfSome, IfNone, codes, length, map};
ghost use Rattle.std.specs.String.{string_bytes};
ghost use Rattle.mt_words.specs.Found.{Finds, FindsFile, FindsOne, FindsOut, given_as, given_with};
ghost use Rattle.mt_words.specs.HasJob.{HasJob, HasNoJob};
ghost use Rattle.mt_words.specs.Held.{given_is, options_are};
ghost use Rattle.mt_words.specs.Laws.Formed.{IsFormed};
ghost use Rattle.mt_words.specs.Model.{job_is, texts};

use crate::given::{Given, Options, read};
use crate::job::Job;
use crate::options::{is_any_given, mean_options, run_options};
use std::alloc::{AllocError, Global};

/// The job that the words after the program's name ask for; `None` where they have none, which is a mistake of usage.
pub fn job_of<'a>(alloc: Global, words: &'a [String]) -> Result<Option<Job<'a>>, AllocError>
    ensures some { IfOk result (λ found. IfSome found (λ job. HasJob (map string_bytes words.now) (job_is job))) }
    ensures none { IfOk result (λ found. IfNone found (HasNoJob (map string_bytes words.now))) }
    ensures formed { IfOk result (λ found. IfSome found (λ job. IsFormed (job_is job))) }
{
    let read = read(alloc, words)?;
    match read {
        Some(given) => asked(alloc, given),
        None => Ok(None),
    }
}

// What is asked for by what is given.
fn asked<'a>(alloc: Global, given: Given<'a>) -> Result<Option<Job<'a>>, AllocError>
    ensures { IfOk result (Finds (given_is given.entry)) }
{
    match given.command {
        Some(command) => named(alloc, command, given.files, given.options),
        None => Ok(None),
    }
}

// What a command of this name asks for.
fn named<'a>(
    alloc: Global,
    command: &str,
    files: Vec<&'a str>,
    options: Options<'a>,
) -> Result<Option<Job<'a>>, AllocError>
    ensures { IfOk result (Finds (given_as command.now files.entry.items options.entry)) }
{
    match command {
        "go" => go(alloc, files, options),
        "build" => Ok(build(files, options)),
        "link" => Ok(link(files, options)),
        "run" => run(alloc, files, options),
        "mean" => Ok(mean(files, options)),
        "dump" => Ok(dump(files, options)),
        "plan" => Ok(plan(files, options)),
        _ => Ok(None),
    }
}

fn go<'a>(
    alloc: Global,
    files: Vec<&'a str>,
    options: Options<'a>,
) -> Result<Option<Job<'a>>, AllocError>
    ensures { IfOk result (Finds (given_as (codes "go") files.entry.items options.entry)) }
{
    let count = file_count(&files);
    if count == 0 {
        return Ok(None);
    }
    let found = run_options(alloc, options)?;
    match found {
        Some(options) => Ok(Some(Job::Go { files, options })),
        None => Ok(None),
    }
}

fn build<'a>(files: Vec<&'a str>, options: Options<'a>) -> Option<Job<'a>>
    ensures { Finds (given_as (codes "build") files.entry.items options.entry) result }
{
    let count = file_count(&files);
    match out_of(count, options) {
        Some(out) => Some(Job::Build { files, out }),
        None => None,
    }
}

fn link<'a>(files: Vec<&'a str>, options: Options<'a>) -> Option<Job<'a>>
    ensures { Finds (given_as (codes "link") files.entry.items options.entry) result }
{
    let count = file_count(&files);
    match out_of(count, options) {
        Some(out) => Some(Job::Link { files, out }),
        None => None,
    }
}

fn run<'a>(
    alloc: Global,
    files: Vec<&'a str>,
    options: Options<'a>,
) -> Result<Option<Job<'a>>, AllocError>
    ensures { IfOk result (Finds (given_as (codes "run") files.entry.items options.entry)) }
{
    match one_file(files) {
        Some(image) => run_image(alloc, image, options),
        None => Ok(None),
    }
}

fn run_image<'a>(
    alloc: Global,
    image: &'a str,
    options: Options<'a>,
) -> Result<Option<Job<'a>>, AllocError>
    ensures { IfOk result (Finds (given_with (codes "run") image.entry.now options.entry)) }
{
    let found = run_options(alloc, options)?;
    match found {
        Some(options) => Ok(Some(Job::Run { image, options })),
        None => Ok(None),
    }
}

fn mean<'a>(files: Vec<&'a str>, options: Options<'a>) -> Option<Job<'a>>
    ensures { Finds (given_as (codes "mean") files.entry.items options.entry) result }
{
    let count = file_count(&files);
    if count == 0 {
        return None;
    }
    match mean_options(options) {
        Some(options) => Some(Job::Mean { files, options }),
        None => None,
    }
}

fn dump<'a>(files: Vec<&'a str>, options: Options<'a>) -> Option<Job<'a>>
    ensures { Finds (given_as (codes "dump") files.entry.items options.entry) result }
{
    match file_alone(files, options) {
        Some(file) => Some(Job::Dump { file }),
        None => None,
    }
}

fn plan<'a>(files: Vec<&'a str>, options: Options<'a>) -> Option<Job<'a>>
    ensures { Finds (given_as (codes "plan") files.entry.items options.entry) result }
{
    match file_alone(files, options) {
        Some(file) => Some(Job::Plan { file }),
        None => None,
    }
}

// How many files there are.
fn file_count(files: &Vec<&str>) -> usize
    ensures { result ≡ length files.now.items }
{
    files.as_slice().len()
}

// The file, where there is one and no option.
fn file_alone<'a>(files: Vec<&'a str>, options: Options<'a>) -> Option<&'a str>
    ensures { FindsFile (texts files.entry.items) (options_are options.entry) result }
{
    if options.out.is_some() {
        return None;
    }
    if is_any_given(options) {
        return None;
    }
    one_file(files)
}

// The file, where there is one.
fn one_file<'a>(files: Vec<&'a str>) -> Option<&'a str>
    ensures { FindsOne (texts files.entry.items) result }
{
    let listed = files.as_slice();
    if listed.len() == 1 {
        return Some(listed[0]);
    }
    None
}

// What is written, where there is a file at least and `--out` alone.
fn out_of<'a>(files: usize, options: Options<'a>) -> Option<&'a str>
    ensures { FindsOut files (options_are options.entry) result }
{
    if files == 0 {
        return None;
    }
    if is_any_given(options) {
        return None;
    }
    options.out
}

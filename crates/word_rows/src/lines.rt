// A job as a line.
use mt_base::Tag;
use mt_words::{Job, MeanOptions, RunOptions};
use std::alloc::{AllocError, Global};

/// As many tags are told one by one.
const MOST_TAGS: usize = 16;

/// The line that tells a job.
pub fn line_of(alloc: Global, job: &Job<'_>) -> Result<String, AllocError> {
    match job {
        Job::Go { files, options } => told(
            alloc,
            "go",
            files.as_slice(),
            run_line(alloc, options)?.as_str(),
        ),
        Job::Build { files, out } => told(
            alloc,
            "build",
            files.as_slice(),
            out_line(alloc, out)?.as_str(),
        ),
        Job::Link { files, out } => told(
            alloc,
            "link",
            files.as_slice(),
            out_line(alloc, out)?.as_str(),
        ),
        Job::Run { image, options } => {
            let options = run_line(alloc, options)?;
            format!(in alloc; "run {image} {options}")
        }
        Job::Mean { files, options } => told(
            alloc,
            "mean",
            files.as_slice(),
            mean_line(alloc, *options)?.as_str(),
        ),
        Job::Dump { file } => format!(in alloc; "dump {file}"),
        Job::Plan { file } => format!(in alloc; "plan {file}"),
    }
}

/// A command with files and options.
fn told(alloc: Global, command: &str, files: &[&str], options: &str) -> Result<String, AllocError> {
    let mut names = String::new(alloc);
    for file in files {
        if !names.is_empty() {
            names.push_str(", ")?;
        }
        names.push_str(file)?;
    }
    format!(in alloc; "{command} [{names}] {options}")
}

fn out_line(alloc: Global, out: &str) -> Result<String, AllocError> {
    format!(in alloc; "out [{out}]")
}

fn mean_line(alloc: Global, options: MeanOptions) -> Result<String, AllocError> {
    format!(in alloc; "work {} stack {}", options.work, options.stack)
}

fn run_line(alloc: Global, options: &RunOptions) -> Result<String, AllocError> {
    let tags = tags_line(alloc, options.choices.as_slice())?;
    format!(in alloc;
        "tags {tags} steps {} stack {}",
        options.steps, options.stack
    )
}

/// The tags as hexadecimal digits, or of many the number, the first two and the last.
fn tags_line(alloc: Global, tags: &[Tag]) -> Result<String, AllocError> {
    match tags {
        [first, second, .., last] if tags.len() > MOST_TAGS => {
            format!(in alloc;
                "{}:{:x}{:x}..{:x}",
                tags.len(),
                first.value(),
                second.value(),
                last.value()
            )
        }
        _ => digits_line(alloc, tags),
    }
}

fn digits_line(alloc: Global, tags: &[Tag]) -> Result<String, AllocError> {
    let mut line = String::new(alloc);
    for tag in tags {
        let value = tag.value();
        let digit = format!(in alloc; "{value:x}")?;
        line.push_str(digit.as_str())?;
    }
    Ok(line)
}

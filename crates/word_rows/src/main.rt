//! Compares rows of words with the job that they ask for. A row is the words, each between quotes, and behind ` => ` one of these:
//!
//!     usage                                              they have no job
//!     go [FILES] tags TAGS steps N stack BYTES           so do `run` with one file, and `mean` with `work N stack BYTES`
//!     build [FILES] out [OUT]                            so does `link`
//!     dump FILE                                          so does `plan`
//!
//! FILES stand with a comma and a space between two. More than 16 TAGS are their number, the first two and the last. `unquoted` of
//! `test_rows` says how words are written.
#![tactic(auto)]

mod lines;

use lines::line_of;
use mt_words::job_of;
use std::alloc::{AllocError, Global};
use std::io;
use test_rows::{Row, Tally, unquoted, words_of};

fn main(rt: HostRuntime) -> io::Result<()> {
    let mut tally = Tally::new();
    for line in rt.lines(rt.alloc()) {
        let line = line?;
        if let Some(row) = Row::of(line.as_str()) {
            let found = answer(rt.alloc(), row.question)?;
            if tally.differs(row.answer, found.as_str()) {
                println!(rt; "{}: {found}, not {}", row.question, row.answer)?;
            }
        }
    }
    println!(rt; "{tally}")
}

/// The job that the words of a row ask for, as a line.
fn answer(alloc: Global, question: &str) -> Result<String, AllocError> {
    let quoted = words_of(alloc, question)?;
    let mut words = Vec::new(alloc);
    for word in quoted.as_slice() {
        words.push(word_of(alloc, word)?)?;
    }
    match job_of(alloc, words.as_slice())? {
        Some(job) => line_of(alloc, &job),
        None => String::from_str(alloc, "usage"),
    }
}

/// A word of a row. One that is no UTF-8 is taken as it stands.
fn word_of(alloc: Global, quoted: &str) -> Result<String, AllocError> {
    let bytes = unquoted(alloc, quoted)?;
    match std::str::from_utf8(bytes.as_slice()) {
        Ok(word) => String::from_str(alloc, word),
        Err(_) => String::from_str(alloc, quoted),
    }
}

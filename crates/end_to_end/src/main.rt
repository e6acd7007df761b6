//! Compares rows with what the commands answer over objects in memory. A row is one of these, its words between quotes:
//!
//!     files "NAME" "TEXT" .. => N           from here on there are these files, N of them
//!     failing N "NAME" "TEXT" .. => N       the same, and the read or write of this number, from 0 on, fails
//!     call "WORD" .. => ENDED               a call of the program with these words
//!     mute "WORD" .. => ENDED               the same, and the error sink fails at once
//!     over ROOM N "INPUT" "WORD" .. => ENDED a call over an input whose read of this number, from 0 on, fails, and an
//!                                           output that takes no more than ROOM bytes
//!     holds "NAME" => "TEXT"                what a file holds
//!     same "NAME" "NAME" => yes             whether two files hold the same bytes
//!     build "TEXT" .. => ANSWER             the call `build` of these texts
//!     cuts N+M "TEXT" => I-J: END, ..       runs of a text's image, cut or filled up to M lengths from N on
//!     flips BITS N+M "TEXT" => I-J: END, .. runs with these bits of M bytes, from N on, changed in turn
//!     answer NAME V .. => ENDED             how a call ends with this answer about the file `a.c`
//!
//! A call ends with a status, the reason for it, and what it put on the output and on the error sink. Of images that are
//! cut or changed, those from I to J that end the same are told together: END is `cut` where the image is
//! Truncated, the number and the place of another refusal, or the status and the reason. What is expected of these comes
//! from `tools/run_rows.py`, the section of `link` from `tools/link_calls.py`, and all else was found by hand.
#![tactic(auto)]

mod answers;
mod calls;
mod images;
mod texts;

use mt_outside::MemFiles;
use std::alloc::{AllocError, Global};
use std::io;
use test_rows::{Row, Tally};

fn main(rt: HostRuntime) -> io::Result<()> {
    let alloc = rt.alloc();
    let mut tally = Tally::new();
    let mut files = MemFiles::new(Vec::new(alloc), Vec::new(alloc));
    for line in rt.lines(rt.alloc()) {
        let line = line?;
        if let Some(row) = Row::of(line.as_str()) {
            let found = answer(alloc, &mut files, row.question)?;
            if tally.differs(row.answer, found.as_str()) {
                println!(rt; "{}: {found}, not {}", row.question, row.answer)?;
            }
        }
    }
    println!(rt; "{tally}")
}

/// The answer to a row. `files` are those that the rows before it left.
fn answer(alloc: Global, files: &mut MemFiles, question: &str) -> Result<String, AllocError> {
    let (kind, rest) = question.split_once(' ').unwrap_or((question, ""));
    match kind {
        "files" => calls::begin(alloc, files, Vec::new(alloc), rest),
        "failing" => calls::begin_failing(alloc, files, rest),
        "call" => calls::call_of(alloc, files, rest, false),
        "mute" => calls::call_of(alloc, files, rest, true),
        "over" => calls::streamed(alloc, files, rest),
        "holds" => calls::held(alloc, files, rest),
        "same" => calls::are_same(alloc, files, rest),
        "build" => texts::built(alloc, rest),
        "cuts" => images::cuts(alloc, rest),
        "flips" => images::flips(alloc, rest),
        "answer" => answers::ended(alloc, rest),
        _ => String::from_str(alloc, "no kind of row"),
    }
}

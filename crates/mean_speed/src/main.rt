//! Runs a loop of C by its meaning, so that the speed of `mean` and the memory of its blocks can be measured (docs/LANGUAGE.md). The words
//! are the loop's name, a number of turns or of bytes, and the units of work that the run has.
#![tactic(auto)]

mod loops;

use c_lex::lex;
use c_parse::parse;
use c_type_base::Typed;
use c_types::check;
use loops::text_of;
use mean_program::{MeanEnd, mean};
use mean_start::FrameSizes;
use mt_outside::{MemSink, MemSource};
use std::alloc::{AllocError, Global};
use std::env;
use std::process::ExitCode;

/// A text has no more tokens than bytes, and these are few.
const MOST_TOKENS: usize = 65_536;

/// What is run.
#[derive(Drop)]
struct Asked {
    text: String,
    work: u64,
}

fn main(rt: HostRuntime) -> ExitCode {
    match asked_by(&rt) {
        Some(asked) => match run(rt.alloc(), &asked) {
            Ok(Some(MeanEnd::Done(_))) => ExitCode::SUCCESS,
            _ => ExitCode::FAILURE,
        },
        None => ExitCode::FAILURE,
    }
}

/// The loop and the work that the words ask for.
fn asked_by(rt: &HostRuntime) -> Option<Asked> {
    let alloc = rt.alloc();
    let words: Vec<String> = env::args(rt).ok()?.skip(1).collect(alloc).ok()?;
    let name = words.get(0)?.as_str();
    let count = words.get(1)?.as_str().parse().ok()?;
    let work = words.get(2)?.as_str().parse().ok()?;
    let text = text_of(alloc, name, count).ok()??;
    Some(Asked { text, work })
}

/// The typed file of a text, if it is one.
fn typed(alloc: Global, text: &str) -> Option<Typed> {
    let tokens = lex(alloc, text.as_bytes()).ok()?;
    let tokens = tokens.as_slice();
    if tokens.len() > MOST_TOKENS {
        return None;
    }
    let program = parse(alloc, tokens).ok()?;
    check(alloc, &program).ok()
}

/// Runs a program, if it is one.
fn run(alloc: Global, asked: &Asked) -> Result<Option<MeanEnd>, AllocError> {
    let Some(file) = typed(alloc, asked.text.as_str()) else {
        return Ok(None);
    };
    let mut bytes = Vec::new(alloc);
    for _ in 0..file.functions.as_slice().len() {
        bytes.push(32)?;
    }
    let units = vec![in alloc; file]?;
    let frames = FrameSizes {
        bytes: vec![in alloc; bytes]?,
    };
    let mut source = MemSource::new(Vec::new(alloc), Vec::new(alloc));
    let mut sink = MemSink::new(alloc, 0, Vec::new(alloc))?;
    Ok(mean(
        alloc,
        &units,
        &frames,
        &mut source,
        &mut sink,
        1_048_576,
        asked.work,
    )
    .ok())
}

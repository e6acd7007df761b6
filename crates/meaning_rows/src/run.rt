//! The run of a row's program.

use crate::asked::Asked;
use block_meaning::Reason;
use c_lex::lex;
use c_parse::parse;
use c_type_base::Typed;
use c_types::check;
use mean_program::{MeanEnd, MeanFault, mean};
use mean_start::FrameSizes;
use mt_outside::{MemSink, MemSource, NextAnswer, Source};
use std::alloc::{AllocError, Global};

/// A text has no more tokens than bytes, and these are few.
const MOST_TOKENS: usize = 65_536;

/// What a run did.
#[derive(Drop)]
pub struct Found {
    pub end: String,
    pub output: Vec<u8>,
    pub left: Vec<u8>,
}

/// The typed file, or why there is none.
fn typed(alloc: Global, text: &[u8]) -> Result<Result<Typed, String>, AllocError> {
    let tokens = match lex(alloc, text) {
        Ok(tokens) => tokens,
        Err(refusal) => return Ok(Err(format!(in alloc; "{refusal}")?)),
    };
    let tokens = tokens.as_slice();
    if tokens.len() > MOST_TOKENS {
        return Ok(Err(String::from_str(alloc, "too many tokens")?));
    }
    match parse(alloc, tokens) {
        Ok(program) => match check(alloc, &program) {
            Ok(typed) => Ok(Ok(typed)),
            Err(refusal) => {
                let number = refusal.number();
                let start = refusal.span().start;
                Ok(Err(format!(in alloc; "rule {number} at {start}")?))
            }
        },
        Err(refusal) => Ok(Err(format!(in alloc; "{refusal}")?)),
    }
}

/// The frame bytes of a file's functions, by the row, and else 32.
fn frames(alloc: Global, asked: &Asked, file: &Typed) -> Result<Vec<u64>, AllocError> {
    let mut sizes = Vec::new(alloc);
    for f in file.functions.as_slice().iter() {
        let mut bytes = 32;
        for frame in asked.frames.iter() {
            if frame.function.as_bytes() == f.name.as_slice() {
                bytes = frame.bytes;
            }
        }
        sizes.push(bytes)?;
    }
    Ok(sizes)
}

/// Runs the program with so much work.
pub fn outcome(
    alloc: Global,
    asked: &Asked,
    work: u64,
) -> Result<Result<Found, String>, AllocError> {
    let mut units = Vec::new(alloc);
    let mut bytes = Vec::new(alloc);
    for source in asked.sources.iter() {
        match typed(alloc, source.as_slice())? {
            Ok(file) => {
                bytes.push(frames(alloc, asked, &file)?)?;
                units.push(file)?;
            }
            Err(refused) => return Ok(Err(refused)),
        }
    }
    if bytes.len() != units.len() {
        return Ok(Err(String::from_str(alloc, "frames of another program")?));
    }
    let frames = FrameSizes { bytes };
    let input = copied(alloc, asked.input.as_slice())?;
    let mut source = MemSource::new(input, failing(alloc, asked.input_fails)?);
    let mut sink = MemSink::new(alloc, 100_000, failing(alloc, asked.output_fails)?)?;
    let ended = mean(
        alloc,
        &units,
        &frames,
        &mut source,
        &mut sink,
        asked.stack,
        work,
    );
    let end = said(alloc, asked, ended)?;
    Ok(Ok(Found {
        end,
        output: copied(alloc, sink.taken())?,
        left: rest(alloc, &mut source)?,
    }))
}

/// The numbers of the calls that fail.
fn failing(alloc: Global, call: Option<u64>) -> Result<Vec<u64>, AllocError> {
    let mut calls = Vec::new(alloc);
    if let Some(call) = call {
        calls.push(call)?;
    }
    Ok(calls)
}

fn copied(alloc: Global, bytes: &[u8]) -> Result<Vec<u8>, AllocError> {
    let mut copy = Vec::new(alloc);
    copy.extend_from_slice(bytes)?;
    Ok(copy)
}

/// What the source has left.
fn rest(alloc: Global, source: &mut MemSource) -> Result<Vec<u8>, AllocError> {
    let mut bytes = Vec::new(alloc);
    for taken in 0..100_000 {
        match source.next() {
            NextAnswer::Byte(byte) => bytes.push(byte)?,
            _ => return Ok(bytes),
        }
    }
    Ok(bytes)
}

/// How a run ended, as rows say it.
fn said(
    alloc: Global,
    asked: &Asked,
    ended: Result<MeanEnd, MeanFault>,
) -> Result<String, AllocError> {
    match ended {
        Ok(MeanEnd::Done(status)) => format!(in alloc; "done {status}"),
        Ok(MeanEnd::Divide) => String::from_str(alloc, "divide"),
        Ok(MeanEnd::Deep) => String::from_str(alloc, "deep"),
        Ok(MeanEnd::More) => String::from_str(alloc, "more"),
        Ok(MeanEnd::Undefined { why, file, span }) => {
            let file = file as usize;
            let name = match asked.names.get(file) {
                Some(name) => name.as_str(),
                None => "?",
            };
            let part = match asked.sources.get(file) {
                Some(text) => text
                    .get(span.start as usize..span.end as usize)
                    .unwrap_or(&[]),
                None => &[],
            };
            let part = str::from_utf8(part).unwrap_or("?");
            format!(in alloc; "undefined {} {name} {} {part}", name_of(why), span.start)
        }
        Err(MeanFault::InputFault) => String::from_str(alloc, "input fault"),
        Err(MeanFault::OutputFault) => String::from_str(alloc, "output fault"),
        Err(MeanFault::NoMemory) => String::from_str(alloc, "out of memory"),
    }
}

fn name_of(why: Reason) -> &'static str {
    match why {
        Reason::Misaligned => "Misaligned",
        Reason::Null => "Null",
        Reason::Dead => "Dead",
        Reason::Outside => "Outside",
        Reason::ReadOnly => "ReadOnly",
        Reason::Indeterminate => "Indeterminate",
        Reason::Part => "Part",
        Reason::Overlap => "Overlap",
        Reason::Compare => "Compare",
        Reason::Signature => "Signature",
    }
}

/// How a program differs from its row; nothing where it does not. With the units that a row says it ends so, and with one less it runs out
/// of work.
pub fn differences(alloc: Global, asked: &Asked, found: &Found) -> Result<String, AllocError> {
    if found.end.as_str() != asked.end.as_str() {
        return format!(in alloc; "ends {}, not {}", found.end, asked.end);
    }
    if found.output.as_slice() != asked.output.as_slice() {
        return String::from_str(alloc, "puts another output");
    }
    if let Some(left) = &asked.left {
        if found.left.as_slice() != left.as_slice() {
            return String::from_str(alloc, "leaves another input");
        }
    }
    if asked.end.as_str() == "more" {
        return Ok(String::new(alloc));
    }
    let Some(spends) = asked.spends else {
        return Ok(String::new(alloc));
    };
    let exact = ends_with(alloc, asked, spends)?;
    if exact.as_str() != asked.end.as_str() {
        return format!(in alloc; "ends {exact} with {spends} units");
    }
    if spends == 0 {
        return Ok(String::new(alloc));
    }
    let less = ends_with(alloc, asked, spends - 1)?;
    if less.as_str() != "more" {
        return format!(in alloc; "ends {less} with a unit less than {spends}");
    }
    Ok(String::new(alloc))
}

/// How the program ends with so much work.
fn ends_with(alloc: Global, asked: &Asked, work: u64) -> Result<String, AllocError> {
    match outcome(alloc, asked, work)? {
        Ok(found) => Ok(found.end),
        Err(refused) => Ok(refused),
    }
}

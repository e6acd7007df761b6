// What calls answer, as words.
use mt_outside::{Files, NextAnswer, PutAnswer, ReadAnswer, Sink, Source, WriteAnswer};
use std::alloc::{AllocError, Global};

// What a read answers, or the text that it got.
fn push_read(trace: &mut String, answer: &ReadAnswer) -> Result<(), AllocError> {
    match answer {
        ReadAnswer::Got(bytes) => trace.push_str(str::from_utf8(bytes).unwrap_or("other")),
        ReadAnswer::Absent => trace.push_str("absent"),
        ReadAnswer::Failed => trace.push_str("failed"),
        ReadAnswer::NoMemory => trace.push_str("memory"),
    }
}

/// What a write answers.
pub(crate) fn written(answer: WriteAnswer) -> &'static str {
    match answer {
        WriteAnswer::Done => "done",
        WriteAnswer::Failed => "failed",
        WriteAnswer::NoMemory => "memory",
    }
}

/// What the calls answer, with spaces between. A call reads its name, or gives it a text.
pub(crate) fn files<F: Files>(
    alloc: Global,
    files: &mut F,
    calls: &[(&str, Option<&str>)],
) -> Result<String, AllocError> {
    let mut trace = String::new(alloc);
    for (name, text) in calls {
        if !trace.is_empty() {
            trace.push(' ')?;
        }
        match text {
            None => push_read(&mut trace, &files.read(alloc, name))?,
            Some(text) => trace.push_str(written(files.write(name, text.as_bytes())))?,
        }
    }
    Ok(trace)
}

/// The next answers of a source: the byte, or `.` at the end and `!` where the read failed.
pub(crate) fn source<S: Source>(
    alloc: Global,
    source: &mut S,
    count: usize,
) -> Result<String, AllocError> {
    let mut trace = String::new(alloc);
    for _ in 0..count {
        trace.push(match source.next() {
            NextAnswer::Byte(byte) => char::from(byte),
            NextAnswer::End => '.',
            NextAnswer::Failed => '!',
        })?;
    }
    Ok(trace)
}

/// What a sink answers to these pieces.
pub(crate) fn sink<K: Sink>(
    alloc: Global,
    sink: &mut K,
    pieces: &[&str],
) -> Result<String, AllocError> {
    let mut trace = String::new(alloc);
    for piece in pieces {
        trace.push_str(match sink.put(piece.as_bytes()) {
            PutAnswer::Done => "done ",
            PutAnswer::Failed => "failed ",
        })?;
    }
    Ok(trace)
}

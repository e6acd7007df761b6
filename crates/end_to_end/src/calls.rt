// Calls of the program over files in memory.
use mt_outside::{Files, MemFile, MemFiles, MemSink, MemSource, ReadAnswer};
use mt_pipeline::{Ended, drive};
use std::alloc::{AllocError, Global};
use test_rows::{unquoted, words_of};

/// From here on there are the files of these words, and calls of the given numbers fail.
pub fn begin(
    alloc: Global,
    files: &mut MemFiles,
    failing: Vec<u64>,
    row: &str,
) -> Result<String, AllocError> {
    let words = words_of(alloc, row)?;
    let mut held = Vec::new(alloc);
    for pair in words.chunks_exact(2) {
        held.push(MemFile {
            name: String::from_str(alloc, pair[0])?,
            bytes: unquoted(alloc, pair[1])?,
        })?;
    }
    let count = held.len();
    *files = MemFiles::new(held, failing);
    format!(in alloc; "{count}")
}

/// The same, of a number and words.
pub fn begin_failing(alloc: Global, files: &mut MemFiles, row: &str) -> Result<String, AllocError> {
    let (number, words) = row.split_once(' ').unwrap_or((row, ""));
    match number.parse::<u64>().ok() {
        Some(number) => begin(alloc, files, vec![in alloc; number]?, words),
        None => String::from_str(alloc, "no number"),
    }
}

/// A call with the words of a row. The error sink fails at once where it is mute.
pub fn call_of(
    alloc: Global,
    files: &mut MemFiles,
    row: &str,
    mute: bool,
) -> Result<String, AllocError> {
    let words = words_of(alloc, row)?;
    call(alloc, files, &words, mute)
}

/// A call over streams of a row: the most bytes that the output takes, the number of the read of the input that fails, the text of the
/// input, and the words.
pub fn streamed(alloc: Global, files: &mut MemFiles, row: &str) -> Result<String, AllocError> {
    let (room, rest) = row.split_once(' ').unwrap_or((row, ""));
    let (number, rest) = rest.split_once(' ').unwrap_or((rest, ""));
    let (Some(room), Some(number)) = (room.parse::<u64>().ok(), number.parse::<u64>().ok()) else {
        return String::from_str(alloc, "no number");
    };
    let words = words_of(alloc, rest)?;
    let Some((text, words)) = words.split_first() else {
        return String::from_str(alloc, "no input");
    };
    let owned = owned(alloc, words)?;
    let mut input = MemSource::new(unquoted(alloc, text)?, vec![in alloc; number]?);
    let mut out = MemSink::new(alloc, room, Vec::new(alloc))?;
    let mut err = MemSink::new(alloc, 100, Vec::new(alloc))?;
    let ended = drive(alloc, &owned, files, &mut input, &mut out, &mut err);
    shown(alloc, ended, out.taken(), err.taken())
}

/// A call with these words: how it ends, and what it puts.
pub fn call(
    alloc: Global,
    files: &mut MemFiles,
    words: &[&str],
    mute: bool,
) -> Result<String, AllocError> {
    let owned = owned(alloc, words)?;
    let mut failing = Vec::new(alloc);
    if mute {
        failing.push(0)?;
    }
    let mut input = MemSource::new(Vec::new(alloc), Vec::new(alloc));
    let mut out = MemSink::new(alloc, 100, Vec::new(alloc))?;
    let mut err = MemSink::new(alloc, 100, failing)?;
    let ended = drive(alloc, &owned, files, &mut input, &mut out, &mut err);
    shown(alloc, ended, out.taken(), err.taken())
}

/// The words in memory of their own.
fn owned(alloc: Global, words: &[&str]) -> Result<Vec<String>, AllocError> {
    let mut owned = Vec::new(alloc);
    for word in words {
        owned.push(String::from_str(alloc, word)?)?;
    }
    Ok(owned)
}

/// How a call with these words ends, whose input is empty.
pub fn ended(
    alloc: Global,
    files: &mut MemFiles,
    words: &[&str],
    out: &mut MemSink,
    err: &mut MemSink,
) -> Result<Ended, AllocError> {
    let owned = owned(alloc, words)?;
    let mut input = MemSource::new(Vec::new(alloc), Vec::new(alloc));
    Ok(drive(alloc, &owned, files, &mut input, out, err))
}

/// How a call ends, and what it put on the output and on the error sink where it put something.
pub fn shown(alloc: Global, ended: Ended, out: &[u8], err: &[u8]) -> Result<String, AllocError> {
    let Ended { status, why } = ended;
    match (text_of(out), text_of(err)) {
        ("", "") => format!(in alloc; "{status} {why:?}"),
        ("", err) => format!(in alloc; "{status} {why:?} err {err:?}"),
        (out, err) => format!(in alloc; "{status} {why:?} out {out:?} err {err:?}"),
    }
}

/// The text of these bytes.
fn text_of(bytes: &[u8]) -> &str {
    str::from_utf8(bytes).unwrap_or("no text")
}

/// What the file of this name holds.
pub fn held(alloc: Global, files: &mut MemFiles, row: &str) -> Result<String, AllocError> {
    let words = words_of(alloc, row)?;
    let [name] = words.as_slice() else {
        return String::from_str(alloc, "no name");
    };
    match files.read(alloc, name) {
        ReadAnswer::Got(bytes) => format!(in alloc; "{:?}", text_of(&bytes)),
        _ => String::from_str(alloc, "not read"),
    }
}

/// Whether the files of these two names hold the same bytes.
pub fn are_same(alloc: Global, files: &mut MemFiles, row: &str) -> Result<String, AllocError> {
    let words = words_of(alloc, row)?;
    let [first, second] = words.as_slice() else {
        return String::from_str(alloc, "no names");
    };
    let ReadAnswer::Got(bytes) = files.read(alloc, first) else {
        return String::from_str(alloc, "not read");
    };
    let ReadAnswer::Got(others) = files.read(alloc, second) else {
        return String::from_str(alloc, "not read");
    };
    let answer = if bytes == others { "yes" } else { "no" };
    String::from_str(alloc, answer)
}

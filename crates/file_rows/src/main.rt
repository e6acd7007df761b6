//! Reads rows from its input, each of them bytes and what they stand for by the rules of docs/FILES.md, and prints the rows
//! for which the readers and writers say something else. A row has one of these forms:
//!
//!     BYTES | INTERVALS              descriptors, and the intervals or the fault
//!     memtag BYTES | ENTRIES         an ELF file, and what it says of memory tagging or its fault
//!     dump BYTES | LINES             an ELF file, and the lines that `dump` prints of it, with / between them, or its fault
//!     record KIND HEX | FIELDS       a record of an ELF file, and its fields in order, in decimal, but for the identification
//!     object HEX | SIZES             an object file, and the sizes of its parts or its fault
//!     cut N | SIZES                  the last object file, cut off at place N
//!     put N HEX | SIZES              the last object file, with other bytes from place N on
//!     add HEX | SIZES                the last object file, with more bytes behind it
//!
//! BYTES are hexadecimal numbers of two digits, and `@N`, zeros up to place N; or `file NAME`, those of a file in data/. HEX are two digits a byte.
#![tactic(auto)]

mod bytes;
mod descriptors;
mod dump;
mod memtag;
mod objects;
mod records;

use std::{fs, io};

fn main(rt: HostRuntime) -> io::Result<()> {
    let mut rows: u64 = 0;
    let mut differ: u64 = 0;
    let mut last: Vec<u8> = Vec::new(rt.alloc());
    for line in rt.lines(rt.alloc()) {
        let line = line?;
        if line.as_str().starts_with('#') {
            continue;
        }
        let Some((question, wanted)) = line.as_str().split_once('|') else {
            continue;
        };
        let answer = match objects::file_of(rt.alloc(), &last, question)? {
            None => answer(&rt, question.trim())?,
            Some(file) => {
                let answer = objects::answer(rt.alloc(), &file)?;
                if question.starts_with("object") {
                    last = file;
                }
                answer
            }
        };
        rows = rows.saturating_add(1);
        if answer.as_str() != wanted.trim() {
            differ = differ.saturating_add(1);
            println!(rt; "{question}|{wanted}: {answer}")?;
        }
    }
    println!(rt; "{rows} rows, {differ} differ")
}

// The answer to a question.
fn answer(rt: &HostRuntime, question: &str) -> io::Result<String> {
    let alloc = rt.alloc();
    let (reader, text) = match question.split_once(' ') {
        Some(("record", text)) => return Ok(records::answer(alloc, text)?),
        Some(("memtag", text)) => (Reader::Memtag, text),
        Some(("dump", text)) => (Reader::Dump, text),
        _ if question == "memtag" => (Reader::Memtag, ""),
        _ => (Reader::Descriptors, question),
    };
    let Some(bytes) = bytes_of(rt, text)? else {
        return Ok(String::from_str(alloc, "no bytes")?);
    };
    match reader {
        Reader::Descriptors => Ok(descriptors::answer(alloc, &bytes)?),
        Reader::Memtag => Ok(memtag::answer(alloc, &bytes)?),
        Reader::Dump => Ok(dump::answer(alloc, &bytes)?),
    }
}

// What reads the bytes of a row.
#[derive(Clone, Copy)]
enum Reader {
    Descriptors,
    Memtag,
    Dump,
}

// The bytes of a row, or None where they have none of its forms.
fn bytes_of(rt: &HostRuntime, text: &str) -> io::Result<Option<Vec<u8>>> {
    match text.strip_prefix("file ") {
        Some(name) => Ok(Some(fs::read(rt, name)?)),
        None => Ok(bytes::bytes_of(rt.alloc(), text)?),
    }
}

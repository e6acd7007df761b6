//! Compares rows of A64 words with what `decode`, `encode` and `Assembly` make of them. Each row is a line of the input:
//!
//!     WORD => LINE           a word, and its line of an assembler
//!     WORD => none           a word that is no row of the table
//!     WORD with V V .. => WORD    the word of the same row with these values in its fields, or none where one is too wide
//!
//! `tools/check_vectors.py` makes them from GNU as.
#![tactic(auto)]

mod fields;

use a64_code::{decode, encode};
use a64_text::Assembly;
use fields::with_fields;
use std::alloc::{AllocError, Global};
use std::io;
use test_rows::{Row, Tally, hex};

fn main(rt: HostRuntime) -> io::Result<()> {
    let mut tally = Tally::new();
    for line in rt.lines(rt.alloc()) {
        let line = line?;
        if let Some(row) = Row::of(line.as_str()) {
            let found = answer(rt.alloc(), row.question)?;
            if tally.differs(row.answer, found.as_str()) {
                println!(rt; "{}: {found}, not {}", row.question, row.answer)?;
            }
        }
    }
    println!(rt; "{tally}")
}

/// The answer to a question.
fn answer(alloc: Global, question: &str) -> Result<String, AllocError> {
    match question.split_once(" with ") {
        None => line_of(alloc, question),
        Some((word, values)) => word_with(alloc, word, values),
    }
}

/// A number of 32 bits in hexadecimal.
fn word_of(text: &str) -> Option<u32> {
    u32::try_from(hex(text)?).ok()
}

/// The line of a word, whose instruction has to have this word again.
fn line_of(alloc: Global, word: &str) -> Result<String, AllocError> {
    let Some(word) = word_of(word) else {
        return String::from_str(alloc, "no word");
    };
    let Some(instr) = decode(word) else {
        return String::from_str(alloc, "none");
    };
    match encode(instr) {
        Some(again) if again == word => format!(in alloc; "{}", Assembly(instr)),
        _ => String::from_str(alloc, "another word"),
    }
}

/// The word of the row of this word, with these values in its fields.
fn word_with(alloc: Global, word: &str, values: &str) -> Result<String, AllocError> {
    let Some(instr) = word_of(word).and_then(|word| decode(word)) else {
        return String::from_str(alloc, "no instruction");
    };
    let mut fields = [0; 5];
    for (field, text) in fields.iter_mut().zip(values.split_whitespace()) {
        match word_of(text) {
            Some(value) => *field = value,
            None => return String::from_str(alloc, "no value"),
        }
    }
    match encode(with_fields(instr, fields)) {
        Some(word) => format!(in alloc; "{word:08X}"),
        None => String::from_str(alloc, "none"),
    }
}

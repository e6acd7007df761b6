// The call `build` of texts.
use crate::images::image_of;
use mt_pipeline::{BuildRefusal, SourceText, build};
use std::alloc::{AllocError, Global};
use test_rows::{unquoted, words_of};

/// What is built of the texts of a row, against the file that the command writes for the first, or why nothing is.
pub fn built(alloc: Global, row: &str) -> Result<String, AllocError> {
    let words = words_of(alloc, row)?;
    let mut sources = Vec::new(alloc);
    for word in words.as_slice() {
        sources.push(SourceText {
            bytes: unquoted(alloc, word)?,
        })?;
    }
    match build(alloc, &sources) {
        Ok(image) => match words.first() {
            Some(first) => compared(alloc, &image, unquoted(alloc, first)?),
            None => String::from_str(alloc, "an image of nothing"),
        },
        Err(refusal) => refused(alloc, &refusal),
    }
}

/// An image against the file that the command writes for a text.
fn compared(alloc: Global, image: &[u8], text: Vec<u8>) -> Result<String, AllocError> {
    let written = image_of(alloc, text)?;
    let answer = if image == written.as_slice() {
        "what the command writes"
    } else {
        "another file"
    };
    String::from_str(alloc, answer)
}

/// A refusal with its number.
fn refused(alloc: Global, refusal: &BuildRefusal) -> Result<String, AllocError> {
    match refusal {
        BuildRefusal::Compile { file, refusal } => {
            format!(in alloc; "{file}: {refusal} {}", refusal.number())
        }
        BuildRefusal::Link(refusal) => format!(in alloc; "{refusal} {}", refusal.number()),
        BuildRefusal::NoMemory => String::from_str(alloc, "NoMemory"),
    }
}

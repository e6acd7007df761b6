use elf_obj::{ObjectParts, ObjectRefusal, read_object};
use std::alloc::{AllocError, Global};
use std::fmt::Write;
use test_rows::bytes_of;

// The file of a row: a new one, or the last one cut off, with other bytes in it or with more behind it. None where the row is none of
// object files.
pub(crate) fn file_of(
    alloc: Global,
    last: &[u8],
    question: &str,
) -> Result<Option<Vec<u8>>, AllocError> {
    let mut words = question.split_whitespace();
    let Some(word) = words.next() else {
        return Ok(None);
    };
    let first = words.next().unwrap_or("");
    if word == "object" {
        return Ok(Some(bytes_of(alloc, first)?));
    }
    let mut file = Vec::from_slice(alloc, last)?;
    if word == "cut" {
        file.truncate(first.parse().unwrap_or(0));
    } else if word == "put" {
        let bytes = bytes_of(alloc, words.next().unwrap_or(""))?;
        put(&mut file, first.parse().unwrap_or(0), &bytes);
    } else if word == "add" {
        let bytes = bytes_of(alloc, first)?;
        file.extend_from_slice(&bytes)?;
    } else {
        return Ok(None);
    }
    Ok(Some(file))
}

// Writes bytes over those from a place on, as far as there are any.
fn put(file: &mut [u8], place: usize, bytes: &[u8]) {
    for (index, byte) in bytes.iter().enumerate() {
        if let Some(old) = file.get_mut(place.saturating_add(index)) {
            *old = *byte;
        }
    }
}

// What is said of a file: the sizes of its parts, or its first fault.
pub(crate) fn answer(alloc: Global, file: &[u8]) -> Result<String, AllocError> {
    match read_object(alloc, file) {
        Ok(parts) => sizes(alloc, &parts),
        Err(ObjectRefusal::NotElf) => String::from_str(alloc, "NotElf"),
        Err(ObjectRefusal::NotThisMachine) => String::from_str(alloc, "NotThisMachine"),
        Err(ObjectRefusal::Truncated { at }) => format!(in alloc; "Truncated {at}"),
        Err(ObjectRefusal::BadSection { index }) => format!(in alloc; "BadSection {index}"),
        Err(ObjectRefusal::BadSymbol { index }) => format!(in alloc; "BadSymbol {index}"),
        Err(ObjectRefusal::BadRelocation { index }) => format!(in alloc; "BadRelocation {index}"),
        Err(ObjectRefusal::NoMemory) => Err(AllocError),
    }
}

// How much there is of each part.
fn sizes(alloc: Global, parts: &ObjectParts) -> Result<String, AllocError> {
    let words = parts.words.len();
    let rodata = parts.rodata.as_slice().len();
    let init = parts.init_bytes.as_slice().len();
    let zero = parts.zero_bytes;
    let symbols = parts.symbols.len();
    let text_relocs = parts.text_relocs.len();
    let init_relocs = parts.init_relocs.len();
    let tagged = parts.tagged.len();
    format!(in alloc;
        "Ok {words} {rodata} {init} {zero} {symbols} {text_relocs} {init_relocs} {tagged}"
    )
}

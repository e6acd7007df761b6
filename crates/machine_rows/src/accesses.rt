// Rows of accesses to memory, without the machine. An access is a letter, an address and a value:
//
//     r A N       reads N bytes: the bytes
//     w A BYTES   writes them: done
//     s A T       sets the tag of the granule at A: done
//     t A         the tag, or none
//     f A         fetches a word: the word, or none
//
// One that is not done answers guard, unmapped or protected.
use crate::layout::memory;
use mt_base::Tag;
use std::alloc::{AllocError, Global};
use std::fmt::Write;
use tag_mem::{Access, FlatMemory, TagMemory};
use test_rows::{bytes_of, hex};

/// The answers to accesses to one memory, one after another.
pub fn answer(alloc: Global, accesses: &str) -> Result<String, AllocError> {
    let mut memory = memory(alloc, &[])?;
    let mut told = String::new(alloc);
    for access in accesses.split(',') {
        let mut words = access.split_whitespace();
        let (Some(name), Some(at)) = (words.next(), words.next().and_then(|at| hex(at))) else {
            return String::from_str(alloc, "no access");
        };
        if !told.is_empty() {
            told.push_str(" ")?;
        }
        let value = words.next().unwrap_or("");
        tell(alloc, &mut told, &mut memory, name, at, value)?;
    }
    Ok(told)
}

fn tell(
    alloc: Global,
    told: &mut String,
    memory: &mut FlatMemory,
    name: &str,
    at: u64,
    value: &str,
) -> Result<(), AllocError> {
    match name {
        "r" => tell_read(told, memory, at, value),
        "w" => {
            let bytes = bytes_of(alloc, value)?;
            told.push_str(word_of(memory.write(at, &bytes)))
        }
        "s" => match tag_of(value) {
            Some(tag) => told.push_str(word_of(memory.set_tag(at, tag))),
            None => told.push_str("no tag"),
        },
        "t" => tell_number(told, memory.tag(at).map(|tag| u32::from(tag.value()))),
        "f" => tell_number(told, memory.fetch(at)),
        _ => told.push_str("no access"),
    }
}

/// Reads as many bytes, 32 at the most.
fn tell_read(
    told: &mut String,
    memory: &FlatMemory,
    at: u64,
    count: &str,
) -> Result<(), AllocError> {
    let mut bytes = [0; 32];
    let count = match hex(count) {
        Some(count) if count <= 32 => count as usize,
        _ => return told.push_str("no count"),
    };
    let read = &mut bytes[..count];
    match memory.read(at, read) {
        Access::Done => tell_bytes(told, read),
        other => told.push_str(word_of(other)),
    }
}

fn tell_bytes(told: &mut String, bytes: &[u8]) -> Result<(), AllocError> {
    told.push_str("=")?;
    for byte in bytes {
        write!(told, "{byte:02X}")?;
    }
    Ok(())
}

fn tell_number(told: &mut String, number: Option<u32>) -> Result<(), AllocError> {
    match number {
        Some(number) => write!(told, "{number:X}"),
        None => told.push_str("none"),
    }
}

fn tag_of(digit: &str) -> Option<Tag> {
    Tag::new(u8::try_from(hex(digit)?).ok()?)
}

fn word_of(access: Access) -> &'static str {
    match access {
        Access::Done => "done",
        Access::Unmapped => "unmapped",
        Access::Guard => "guard",
        Access::Protected => "protected",
    }
}

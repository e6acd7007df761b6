use elf_image::ImageRefusal;
use memtag_dump::{DumpRefusal, dump};
use std::alloc::{AllocError, Global};
use std::fmt::Write;

// The lines that are printed of the file of these bytes, with / between them, or what is wrong with it and where.
pub(crate) fn answer(alloc: Global, bytes: &[u8]) -> Result<String, AllocError> {
    match dump(alloc, bytes) {
        Ok(text) => joined(alloc, text.as_str()),
        Err(DumpRefusal::NoMemory) => Err(AllocError),
        Err(DumpRefusal::File(ImageRefusal::NotElf)) => String::from_str(alloc, "NotElf"),
        Err(DumpRefusal::File(ImageRefusal::NotThisMachine)) => {
            String::from_str(alloc, "NotThisMachine")
        }
        Err(refusal) => {
            let place = refusal.place();
            format!(in alloc; "{refusal} {place}")
        }
    }
}

// The lines of a text, each of which has its end.
fn joined(alloc: Global, text: &str) -> Result<String, AllocError> {
    let mut list = String::new(alloc);
    for line in text.split_terminator('\n') {
        if !list.is_empty() {
            list.push_str(" / ")?;
        }
        list.push_str(line)?;
    }
    Ok(list)
}

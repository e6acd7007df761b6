use crate::descriptors;
use elf_image::{ImageRefusal, MemtagInfo, read_memtag};
use std::alloc::{AllocError, Global};
use std::fmt::Write;

// What the file of these bytes says of memory tagging, or what is wrong with it.
pub(crate) fn answer(alloc: Global, bytes: &[u8]) -> Result<String, AllocError> {
    match read_memtag(alloc, bytes) {
        Ok(info) => listed(alloc, &info),
        Err(ImageRefusal::NoMemory) => Err(AllocError),
        Err(ImageRefusal::NotElf) => String::from_str(alloc, "NotElf"),
        Err(ImageRefusal::NotThisMachine) => String::from_str(alloc, "NotThisMachine"),
        Err(refusal) => {
            let place = refusal.place();
            format!(in alloc; "{refusal} {place}")
        }
    }
}

// What is there, in the order of the fields, and the intervals that the descriptors describe.
fn listed(alloc: Global, info: &MemtagInfo) -> Result<String, AllocError> {
    let mut list = String::new(alloc);
    put_number(alloc, &mut list, "mode", info.mode)?;
    put_number(alloc, &mut list, "heap", info.heap)?;
    put_number(alloc, &mut list, "stack", info.stack)?;
    if let Some(bytes) = &info.descriptors {
        put_name(&mut list, "descriptors")?;
        let intervals = descriptors::answer(alloc, bytes.as_slice())?;
        if !intervals.is_empty() {
            list.push_str(" ")?;
            list.push_str(intervals.as_str())?;
        }
    }
    if list.is_empty() {
        list.push_str("nothing")?;
    }
    Ok(list)
}

// Appends a number that is there.
fn put_number(
    alloc: Global,
    list: &mut String,
    name: &str,
    value: Option<u64>,
) -> Result<(), AllocError> {
    let Some(value) = value else {
        return Ok(());
    };
    put_name(list, name)?;
    let text = format!(in alloc; " {value}")?;
    list.push_str(text.as_str())
}

// Appends a name behind what is there.
fn put_name(list: &mut String, name: &str) -> Result<(), AllocError> {
    if !list.is_empty() {
        list.push_str(", ")?;
    }
    list.push_str(name)
}

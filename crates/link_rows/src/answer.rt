ghost use Rattle.std.specs.Prelude.{IfSome, OnOk};
ghost use Rattle.std.specs.List.{AllByRecursion};
ghost use Rattle.elf_obj.specs.ObjectFile.{IsValid};
ghost use Rattle.linker.specs.Known.{objects_of};

use crate::draft::Draft;
use crate::file::file_of;
use crate::objects::Shelf;
use crate::runs::{bytes_listed, words_listed};
use elf_base::Name;
use elf_image::ImageParts;
use elf_obj::{ObjectParts, ObjectRefusal, read_object};
use linker::{LinkRefusal, link};
use std::alloc::{AllocError, Global};
use std::fmt::Write;

/// The answer to a row: what the link of the objects that it names gives.
pub(crate) fn answer(alloc: Global, shelf: &Shelf, question: &str) -> Result<String, AllocError> {
    let mut words = question.split_whitespace();
    if words.next() != Some("link") {
        return String::from_str(alloc, "no kind of row");
    }
    let mut objects = Vec::new(alloc);
    for name in words {
        if let Some(refusal) = add(alloc, &mut objects, shelf.text_of(name))? {
            return format!(in alloc; "{name}: {refusal} {}", refusal.place());
        }
    }
    linked(alloc, &objects)
}

// Adds the object that a text writes, or says why its file is none.
fn add(
    alloc: Global,
    objects: &mut Vec<ObjectParts>,
    text: &str,
) -> Result<Option<ObjectRefusal>, AllocError>
    requires { AllByRecursion IsValid (objects_of objects.now.items) }
    ensures { OnOk result (AllByRecursion IsValid (objects_of objects.new.items)) }
{
    let draft = Draft::of(alloc, text)?;
    let file = file_of(alloc, &draft)?;
    match read_object(alloc, &file) {
        Ok(parts) => {
            objects.push(parts)?;
            Ok(None)
        }
        Err(ObjectRefusal::NoMemory) => Err(AllocError),
        Err(refusal) => Ok(Some(refusal)),
    }
}

fn linked(alloc: Global, objects: &[ObjectParts]) -> Result<String, AllocError>
    requires { AllByRecursion IsValid (objects_of objects.now) }
{
    match link(alloc, objects) {
        Ok(image) => listed(alloc, &image),
        Err(LinkRefusal::TooManyObjects { count }) => format!(in alloc; "TooManyObjects {count}"),
        Err(LinkRefusal::Duplicate { name }) => named(alloc, "Duplicate ", &name),
        Err(LinkRefusal::NoMain) => String::from_str(alloc, "NoMain"),
        Err(LinkRefusal::Undefined { name }) => named(alloc, "Undefined ", &name),
        Err(LinkRefusal::ImageTooLarge { bytes }) => format!(in alloc; "ImageTooLarge {bytes}"),
        Err(LinkRefusal::NoMemory) => Err(AllocError),
    }
}

// A refusal and a name, in which what is neither a letter, a digit, `_` nor `.` is two hexadecimal digits behind `\x`.
fn named(alloc: Global, refusal: &str, name: &Name) -> Result<String, AllocError> {
    let mut line = String::from_str(alloc, refusal)?;
    for byte in name.as_slice() {
        if byte.is_ascii_alphanumeric() || *byte == b'_' || *byte == b'.' {
            line.push(char::from(*byte))?;
        } else {
            let digits = format!(in alloc; "\\x{:02x}", *byte)?;
            line.push_str(digits.as_str())?;
        }
    }
    Ok(line)
}

// Each part of an image, in one line.
fn listed(alloc: Global, parts: &ImageParts) -> Result<String, AllocError> {
    let mut line = format!(in alloc; "entry {:x}, relocs ", parts.entry)?;
    if parts.relocs.is_empty() {
        line.push('-')?;
    }
    let mut is_first = true;
    for reloc in parts.relocs.as_slice() {
        if !is_first {
            line.push(' ')?;
        }
        is_first = false;
        let one = format!(in alloc; "{:x}{:+}", reloc.place, reloc.addend)?;
        line.push_str(one.as_str())?;
    }
    line.push_str(", descriptors ")?;
    push_hex(alloc, &mut line, parts.descriptors.as_slice())?;
    push_part(
        &mut line,
        ", rodata ",
        &bytes_listed(alloc, parts.rodata.as_slice())?,
    )?;
    push_part(&mut line, ", words ", &words_listed(alloc, &parts.words)?)?;
    push_part(
        &mut line,
        ", filled ",
        &bytes_listed(alloc, parts.filled.as_slice())?,
    )?;
    let zeros = format!(in alloc; ", zeros {}", parts.zero_bytes)?;
    line.push_str(zeros.as_str())?;
    Ok(line)
}

fn push_part(line: &mut String, title: &str, text: &String) -> Result<(), AllocError> {
    line.push_str(title)?;
    line.push_str(text.as_str())
}

// Two digits for each byte, or a dash where there is none.
fn push_hex(alloc: Global, line: &mut String, bytes: &[u8]) -> Result<(), AllocError> {
    if bytes.is_empty() {
        return line.push('-');
    }
    for byte in bytes {
        let digits = format!(in alloc; "{:02x}", *byte)?;
        line.push_str(digits.as_str())?;
    }
    Ok(())
}

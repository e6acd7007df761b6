// What an image puts out from its start.
ghost use Rattle.elf_image.specs.Image.{image_of};
ghost use Rattle.elf_image.specs.Places.{IsValid};

use crate::bytes::bytes_of;
use elf_image::{ImageParts, read_image};
use mt_base::Tag;
use mt_outside::{MemSink, MemSource};
use mte_machine::MachineEnd;
use std::alloc::{AllocError, Global};
use std::fmt::Write;
use tag_startup::{StartRefusal, start};

// The bytes of the stack, the bytes that an image may put out, and the steps that it may run.
const STACK: u64 = 65_536;

const OUTPUT: u64 = 4_096;

const STEPS: u64 = 10_000;

// The answer to a row's question.
pub(crate) fn answer(alloc: Global, question: &str) -> Result<String, AllocError> {
    let (digits, file) = question.split_once(' ').unwrap_or((question, ""));
    let choices = choices_of(alloc, digits)?;
    let Some(bytes) = bytes_of(alloc, file)? else {
        return String::from_str(alloc, "no bytes");
    };
    match read_image(alloc, &bytes) {
        Ok(image) => found(alloc, &image, &choices),
        Err(_) => String::from_str(alloc, "no image"),
    }
}

// The tags of hexadecimal digits, up to the first that is none.
fn choices_of(alloc: Global, digits: &str) -> Result<Vec<Tag>, AllocError> {
    let mut choices = Vec::new(alloc);
    for digit in digits.chars() {
        let Some(value) = digit.to_digit(16) else {
            break;
        };
        let Some(tag) = u8::try_from(value).ok().and_then(Tag::new) else {
            break;
        };
        choices.push(tag)?;
    }
    Ok(choices)
}

// What the image puts out, or why it does not start.
fn found(alloc: Global, image: &ImageParts, choices: &[Tag]) -> Result<String, AllocError>
    requires { IsValid (image_of image.now) }
{
    if choices.is_empty() {
        return String::from_str(alloc, "no tags");
    }
    let mut machine = match start(alloc, image, choices, STACK) {
        Ok(machine) => machine,
        Err(StartRefusal::NoMemory) => return Err(AllocError),
        Err(StartRefusal::Descriptors(refusal)) => {
            let place = refusal.place();
            return format!(in alloc; "{refusal} {place}");
        }
        Err(StartRefusal::Outside { index }) => return format!(in alloc; "Outside {index}"),
    };
    let mut source = MemSource::new(Vec::new(alloc), Vec::new(alloc));
    let mut sink = MemSink::new(alloc, OUTPUT, Vec::new(alloc))?;
    match machine.run(&mut source, &mut sink, STEPS) {
        MachineEnd::Exited(0) => hex_of(alloc, sink.taken()),
        _ => String::from_str(alloc, "another end"),
    }
}

// Bytes in hexadecimal.
fn hex_of(alloc: Global, bytes: &[u8]) -> Result<String, AllocError> {
    let mut text = String::new(alloc);
    for byte in bytes {
        let digits = format!(in alloc; "{byte:02x}")?;
        text.push_str(digits.as_str())?;
    }
    Ok(text)
}

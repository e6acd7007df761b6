ghost use Rattle.std.specs.Prelude.{◌<◌, IfSome};

use elf_image::{ImageParts, ImageRefusal, read_image, write_image};
use std::alloc::{AllocError, Global};
use std::fmt::Write;

// Rows give places and lengths below this.
const LIMIT: usize = 0x100_0000;

// The answer to a row. A row `base` has a file's length and the bytes in it that are not zero, and the file is kept; a row `edit`
// has other bytes for the last file; `cuts` stands for that file cut at each length.
pub(crate) fn answer(alloc: Global, base: &mut Vec<u8>, row: &str) -> Result<String, AllocError> {
    if let Some(rest) = row.strip_prefix("base ") {
        return based(alloc, base, rest);
    }
    if let Some(pieces) = row.strip_prefix("edit ") {
        let mut bytes = Vec::from_slice(alloc, base)?;
        if !lay(&mut bytes, pieces)? {
            return String::from_str(alloc, "no bytes");
        }
        return read_as(alloc, &bytes);
    }
    if row.trim() == "cuts" {
        return cut(alloc, base);
    }
    String::from_str(alloc, "no row")
}

// A new file, and what it is read as.
fn based(alloc: Global, base: &mut Vec<u8>, row: &str) -> Result<String, AllocError> {
    let Some((length, pieces)) = row.split_once(' ') else {
        return String::from_str(alloc, "no length");
    };
    let Ok(length) = usize::from_str_radix(length, 10) else {
        return String::from_str(alloc, "no length");
    };
    if length > LIMIT {
        return String::from_str(alloc, "too long");
    }
    let mut bytes = vec![in alloc; 0; length]?;
    if !lay(&mut bytes, pieces)? {
        return String::from_str(alloc, "no bytes");
    }
    let read = read_as(alloc, &bytes)?;
    *base = bytes;
    Ok(read)
}

// Lays pieces over bytes: each is a place, a colon, and two digits for each byte. Whether each was one.
fn lay(bytes: &mut Vec<u8>, pieces: &str) -> Result<bool, AllocError> {
    for piece in pieces.split_whitespace() {
        let Some((place, digits)) = piece.split_once(':') else {
            return Ok(false);
        };
        let Ok(place) = usize::from_str_radix(place, 16) else {
            return Ok(false);
        };
        if place > LIMIT || !put(bytes, place, digits)? {
            return Ok(false);
        }
    }
    Ok(true)
}

// Puts the bytes of some digits at a place, with zeros before it where the bytes end earlier.
fn put(bytes: &mut Vec<u8>, place: usize, digits: &str) -> Result<bool, AllocError> {
    let mut at = place;
    let mut high = None;
    for digit in digits.as_bytes() {
        let Some(value) = value_of(*digit) else {
            return Ok(false);
        };
        match high {
            None => high = Some(value),
            Some(front) => {
                set(bytes, at, (front << 4) | value)?;
                at = at.saturating_add(1);
                high = None;
            }
        }
    }
    Ok(high.is_none())
}

fn value_of(digit: u8) -> Option<u8>
    ensures { IfSome result (λ v. v < 16) }
{
    match digit {
        b'0'..=b'9' => Some(digit - b'0'),
        b'a'..=b'f' => Some(digit - b'a' + 10),
        _ => None,
    }
}

fn set(bytes: &mut Vec<u8>, at: usize, value: u8) -> Result<(), AllocError> {
    if let Some(byte) = bytes.get_mut(at) {
        *byte = value;
        return Ok(());
    }
    for _ in bytes.len()..at {
        bytes.push(0)?;
    }
    bytes.push(value)?;
    Ok(())
}

// What bytes are read as: the parts, which have to be written as the same bytes again, or the fault and its place.
fn read_as(alloc: Global, bytes: &[u8]) -> Result<String, AllocError> {
    match read_image(alloc, bytes) {
        Ok(parts) => {
            if write_image(alloc, &parts)?.as_slice() == bytes {
                listed(alloc, &parts)
            } else {
                String::from_str(alloc, "written otherwise")
            }
        }
        Err(ImageRefusal::NotElf) => String::from_str(alloc, "NotElf"),
        Err(ImageRefusal::NotThisMachine) => String::from_str(alloc, "NotThisMachine"),
        Err(ImageRefusal::Truncated { at }) => format!(in alloc; "Truncated {at}"),
        Err(ImageRefusal::BadSegment { index }) => format!(in alloc; "BadSegment {index}"),
        Err(ImageRefusal::BadDynamic { index }) => format!(in alloc; "BadDynamic {index}"),
        Err(ImageRefusal::NoMemory) => Err(AllocError),
    }
}

// Each part of an image, in one line.
fn listed(alloc: Global, parts: &ImageParts) -> Result<String, AllocError> {
    let mut line = format!(in alloc; "entry {:#x}, relocs", parts.entry)?;
    for reloc in parts.relocs.as_slice() {
        let one = format!(in alloc; " {:#x}{:+}", reloc.place, reloc.addend)?;
        line.push_str(one.as_str())?;
    }
    line.push_str(", descriptors ")?;
    push_hex(alloc, &mut line, parts.descriptors.as_slice())?;
    line.push_str(", rodata ")?;
    push_hex(alloc, &mut line, parts.rodata.as_slice())?;
    line.push_str(", words")?;
    for word in parts.words.as_slice() {
        let one = format!(in alloc; " {:x}", *word)?;
        line.push_str(one.as_str())?;
    }
    line.push_str(", filled ")?;
    push_hex(alloc, &mut line, parts.filled.as_slice())?;
    let zeros = format!(in alloc; ", zeros {}", parts.zero_bytes)?;
    line.push_str(zeros.as_str())?;
    Ok(line)
}

// Two digits for each byte, or a dash where there is none.
fn push_hex(alloc: Global, line: &mut String, bytes: &[u8]) -> Result<(), AllocError> {
    if bytes.is_empty() {
        return line.push_str("-");
    }
    for byte in bytes {
        let digits = format!(in alloc; "{:02x}", *byte)?;
        line.push_str(digits.as_str())?;
    }
    Ok(())
}

// Whether each front of a file is refused as cut there.
fn cut(alloc: Global, bytes: &[u8]) -> Result<String, AllocError> {
    for n in 0..bytes.len() {
        match read_image(alloc, &bytes[..n]) {
            Err(ImageRefusal::Truncated { at }) if at == n as u64 => (),
            Err(ImageRefusal::NoMemory) => return Err(AllocError),
            _ => return format!(in alloc; "another answer at {n}"),
        }
    }
    String::from_str(alloc, "each Truncated")
}

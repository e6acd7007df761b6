// What an ELF file of any producer says of memory tagging.
ghost use Rattle.std.specs.Prelude.{◌≡◌, ◌⊎◌, ◌↔◌, ◌+◌, ◌-◌, ◌<◌, ◌≤◌, length, find, IfOk, IfErr, IfSome, IfNone, IsTrue, MatchResult};
ghost use Rattle.elf_base.specs.Standing.{dyn_at, phdr_at};
ghost use Rattle.elf_image.specs.MemtagFile.{BeginsElf, HasDynamic, entries_of, first_of, header_of, is_dynamic, segments_of};
ghost use Rattle.elf_image.specs.MemtagEntries.{AreDescriptors, Entries, MemtagFault, holds, value_of};
ghost use Rattle.elf_image.specs.Laws.ReadMemtag.{AreHeaders, NotHeld};

use crate::refusal::ImageRefusal;
use elf_base::{Bytes, Dyn, Ehdr, Phdr, read_dyn, read_ehdr, read_phdr};
use std::alloc::Global;

/// What the dynamic segment of an ELF file says of memory tagging (Memtag ABI). A number that no entry gives is None.
#[derive(Drop)]
pub struct MemtagInfo {
    /// AARCH64_MEMTAG_MODE: 0 for synchronous faults, 1 for asynchronous ones.
    pub mode: Option<u64>,
    /// AARCH64_MEMTAG_HEAP: 1 where the heap is tagged.
    pub heap: Option<u64>,
    /// AARCH64_MEMTAG_STACK: 1 where the stack is tagged.
    pub stack: Option<u64>,
    /// The bytes that describe the tagged objects, None where the entries name none.
    pub descriptors: Option<Bytes>,
}

// An entry of the dynamic segment: its number, from 0, and what it says.
#[derive(Clone, Copy)]
struct Found {
    index: u64,
    value: u64,
}

// Where the program headers stand, and how many there are.
#[derive(Clone, Copy)]
struct Headers {
    place: u64,
    count: u64,
}

// With which bytes an ELF file of 64 bits, little-endian, begins.
const IDENT: [u8; 6] = [0x7f, 0x45, 0x4c, 0x46, 2, 1];

// EM_AARCH64, and the length of a program header.
const MACHINE: u16 = 183;

const HEADER_BYTES: u16 = 56;

// PT_LOAD and PT_DYNAMIC.
const LOAD: u32 = 1;

const DYNAMIC: u32 = 2;

/// What the file says of memory tagging. It may be of any producer; docs/FILES.md has the rules.
pub fn read_memtag(alloc: Global, bytes: &[u8]) -> Result<MemtagInfo, ImageRefusal>
    // What is read is what the file says.
    ensures found { IfOk result (Entries bytes.now) }

    // What the file says is read, unless memory runs out.
    ensures only { (info : MemtagInfo) → Entries bytes.now info
        → MatchResult result (λ i. i ≡ info) (λ e. e ≡ ImageRefusal.NoMemory) }

    // What is refused has that first fault, unless memory ran out.
    ensures refused { IfErr result (λ e. (e ≡ ImageRefusal.NoMemory) ⊎ MemtagFault bytes.now e) }

    // A file that has a fault is refused with it, unless memory runs out.
    ensures refuses { (fault : ImageRefusal) → MemtagFault bytes.now fault
        → MatchResult result (λ i. ⊥) (λ e. (e ≡ fault) ⊎ (e ≡ ImageRefusal.NoMemory)) }
{
    let headers = headers_of(bytes)?;
    let segment = dynamic_segment(bytes, headers)?;
    let globals = first_entry(bytes, segment, 0x7000_000d);
    let size = first_entry(bytes, segment, 0x7000_000f);
    let descriptors = descriptors_of(alloc, bytes, headers, globals, size)?;
    Ok(MemtagInfo {
        mode: value_of(first_entry(bytes, segment, 0x7000_0009)),
        heap: value_of(first_entry(bytes, segment, 0x7000_000b)),
        stack: value_of(first_entry(bytes, segment, 0x7000_000c)),
        descriptors,
    })
}

// Where the program headers are, all of which are there.
fn headers_of(bytes: &[u8]) -> Result<Headers, ImageRefusal>
    ensures found { IfOk result (AreHeaders bytes.now) }
    ensures few { IfOk result (λ h. h.count < 65536) }
    ensures refused { IfErr result (MemtagFault bytes.now) }
{
    if !begins_elf(bytes) {
        return Err(ImageRefusal::NotElf);
    }
    let Some(header) = header_of(bytes) else {
        return Err(cut(bytes));
    };
    if header.machine != MACHINE {
        return Err(ImageRefusal::NotThisMachine);
    }
    if header.phentsize != HEADER_BYTES {
        return Err(ImageRefusal::BadSegment { index: 0 });
    }
    let headers = Headers {
        place: header.phoff,
        count: u64::from(header.phnum),
    };
    if are_there(bytes, headers.place, 56 * headers.count) {
        Ok(headers)
    } else {
        Err(cut(bytes))
    }
}

// Whether as many of the first bytes as there are begin an ELF file.
fn begins_elf(bytes: &[u8]) -> bool
    ensures { IsTrue result ↔ BeginsElf bytes.now }
{
    let shown = bytes.len().min(6);
    bytes[..shown] == IDENT[..shown]
}

// The file ends too early.
fn cut(bytes: &[u8]) -> ImageRefusal
    ensures { result ≡ ImageRefusal.Truncated (length bytes.now) }
{
    ImageRefusal::Truncated {
        at: bytes.len() as u64,
    }
}

// Whether so many bytes from a place on are all there.
fn are_there(bytes: &[u8], place: u64, len: u64) -> bool
    ensures { IsTrue result ↔ (place + len ≤ length bytes.now) }
{
    let total = bytes.len() as u64;
    place <= total && len <= total - place
}

// The header of the file, where it is whole.
fn header_of(bytes: &[u8]) -> Option<Ehdr>
    ensures some { IfSome result (λ h. (h ≡ header_of bytes.now) × (64 ≤ length bytes.now)) }
    ensures none { IfNone result (length bytes.now < 64) }
{
    match read_ehdr(bytes, 0) {
        Ok(header) => Some(header),
        Err(_) => None,
    }
}

// The program header at a place.
fn segment_at(bytes: &[u8], at: u64) -> Phdr
    requires { at + 56 ≤ length bytes.now }
    ensures { result ≡ phdr_at at bytes.now }
{
    match read_phdr(bytes, at) {
        Ok(segment) => segment,
        Err(_) => unreachable!(),
    }
}

// The dynamic entry at a place.
fn entry_at(bytes: &[u8], at: u64) -> Dyn
    requires { at + 16 ≤ length bytes.now }
    ensures { result ≡ dyn_at at bytes.now }
{
    match read_dyn(bytes, at) {
        Ok(entry) => entry,
        Err(_) => unreachable!(),
    }
}

// The first dynamic segment, all of whose bytes are there.
fn dynamic_segment(bytes: &[u8], headers: Headers) -> Result<Phdr, ImageRefusal>
    requires are { AreHeaders bytes.now headers }
    requires few { headers.count < 65536 }
    ensures found { IfOk result (HasDynamic bytes.now) }
    ensures refused { IfErr result (MemtagFault bytes.now) }
{
    let Some(segment) = first_dynamic(bytes, headers) else {
        return Err(ImageRefusal::BadSegment {
            index: headers.count as u32,
        });
    };
    if are_there(bytes, segment.offset, segment.filesz) {
        Ok(segment)
    } else {
        Err(cut(bytes))
    }
}

// The first program header of a dynamic segment.
fn first_dynamic(bytes: &[u8], headers: Headers) -> Option<Phdr>
    requires { AreHeaders bytes.now headers }
    ensures { result ≡ find is_dynamic (segments_of bytes.now) }
{
    for k in 0..headers.count {
        let segment = segment_at(bytes, headers.place + 56 * k);
        if segment.kind == DYNAMIC {
            return Some(segment);
        }
    }
    None
}

// The first program header of a segment that holds so many bytes from an address on.
fn first_holder(bytes: &[u8], headers: Headers, address: u64, size: u64) -> Option<Phdr>
    requires { AreHeaders bytes.now headers }
    ensures is { result ≡ find (holds (length bytes.now) address size) (segments_of bytes.now) }
    ensures front { IfSome result (λ p. p.vaddr ≤ address) }
    ensures within { IfSome result (λ p. p.offset + (address - p.vaddr) + size ≤ length bytes.now) }
{
    for k in 0..headers.count {
        let segment = segment_at(bytes, headers.place + 56 * k);
        if holds(&segment, bytes.len() as u64, address, size) {
            return Some(segment);
        }
    }
    None
}

// Whether a segment of a file of so many bytes is loaded and has so many bytes from an address on, all of them in the file.
fn holds(segment: &Phdr, total: u64, address: u64, size: u64) -> bool
    ensures { result ≡ holds total address size segment.now }
{
    if segment.kind != LOAD || address < segment.vaddr {
        return false;
    }
    let front = address - segment.vaddr;
    if segment.filesz < front || segment.filesz - front < size {
        return false;
    }
    segment.offset <= total
        && front <= total - segment.offset
        && size <= total - segment.offset - front
}

// The first entry of a tag before the one that ends the list.
fn first_entry(bytes: &[u8], segment: Phdr, tag: u32) -> Option<Found>
    requires { segment.offset + segment.filesz ≤ length bytes.now }
    ensures { result ≡ first_of tag (entries_of bytes.now segment) }
{
    let tag = i64::from(tag);
    for index in 0..segment.filesz / 16 {
        let entry = entry_at(bytes, segment.offset + 16 * index);
        if entry.tag == 0 {
            return None;
        }
        if entry.tag == tag {
            return Some(Found {
                index,
                value: entry.value,
            });
        }
    }
    None
}

// What an entry says, where there is one.
fn value_of(found: Option<Found>) -> Option<u64>
    ensures { result ≡ value_of found }
{
    match found {
        Some(found) => Some(found.value),
        None => None,
    }
}

// The descriptors that two entries name, where both are there.
fn descriptors_of(
    alloc: Global,
    bytes: &[u8],
    headers: Headers,
    globals: Option<Found>,
    size: Option<Found>,
) -> Result<Option<Bytes>, ImageRefusal>
    requires { AreHeaders bytes.now headers }
    ensures found { IfOk result (AreDescriptors bytes.now globals size) }
    ensures refused { IfErr result (λ e. (e ≡ ImageRefusal.NoMemory) ⊎ NotHeld bytes.now globals size e) }
{
    let Some(globals) = globals else {
        return Ok(None);
    };
    let Some(size) = size else {
        return Ok(None);
    };
    if size.value == 0 {
        return Ok(Some(Bytes::new(Vec::new(alloc))));
    }
    let Some(segment) = first_holder(bytes, headers, globals.value, size.value) else {
        return Err(ImageRefusal::BadDynamic {
            index: u32::try_from(globals.index).unwrap_or(u32::MAX),
        });
    };
    let start = (segment.offset + (globals.value - segment.vaddr)) as usize;
    let found = Bytes::from_slice(alloc, &bytes[start..start + size.value as usize])?;
    Ok(Some(found))
}

// The parts of an image, out of its file.
ghost use Rattle.std.specs.Prelude.{◌≡◌, ◌⊎◌, ◌+◌, ◌-◌, ◌*◌, ◌≤◌, length, take, drop, IfOk, IfErr, MatchResult};
ghost use Rattle.elf_image.specs.Faults.{ImageFault};
ghost use Rattle.elf_image.specs.Image.{Image, image_of};
ghost use Rattle.elf_image.specs.Ranges.{IsFileOf};
ghost use Rattle.elf_image.specs.Laws.Items.{reloc_at, relocs_at, words_at};
ghost use Rattle.elf_image.specs.Laws.ReadBack.{image_at};
ghost use Rattle.elf_image.specs.Laws.Within.{Room};

use crate::bytes::{u32_at, u64_at};
use crate::entries::sizes_of;
use crate::heads::Heads;
use crate::judge::judge;
use crate::layout::RELOCS_PLACE;
use crate::parts::{ImageParts, RelativeReloc};
use crate::refusal::ImageRefusal;
use elf_base::Bytes;
use mt_base::round16;
use std::alloc::{AllocError, Global};

/// The parts of which the bytes are the file, or the first condition that fails, with its place. docs/FILES.md lists the
/// conditions. The time is that of one pass over the bytes, and memory is taken for bytes that are there alone.
pub fn read_image(alloc: Global, bytes: &[u8]) -> Result<ImageParts, ImageRefusal>
    // The bytes are the file of what is read.
    ensures found { IfOk result (λ p. IsFileOf (image_of p) bytes.now) }

    // The file of an image is read, unless memory runs out.
    ensures only { (p : Image) → IsFileOf p bytes.now
        → MatchResult result (λ q. image_of q ≡ p) (λ e. e ≡ ImageRefusal.NoMemory) }

    // What is refused has that first fault, unless memory ran out.
    ensures refused { IfErr result (λ e. (e ≡ ImageRefusal.NoMemory) ⊎ ImageFault bytes.now e) }

    // Bytes that have a fault are refused with it.
    ensures refuses { (fault : ImageRefusal) → ImageFault bytes.now fault
        → MatchResult result (λ _. ⊥) (λ e. e ≡ fault) }
{
    let heads = judge(bytes)?;
    let parts = parts_at(alloc, bytes, &heads)?;
    Ok(parts)
}

// The parts of a file without a fault.
fn parts_at(alloc: Global, bytes: &[u8], heads: &Heads) -> Result<ImageParts, AllocError>
    requires { Room bytes.now heads.now }
    ensures { IfOk result (λ p. image_of p ≡ image_at bytes.now heads.now) }
{
    let sizes = sizes_of(bytes, heads);
    let descriptors = RELOCS_PLACE + sizes.relocs;
    let descriptors_end = descriptors + sizes.descriptors;
    let rodata = round16(descriptors_end);
    let filled = heads.writable.offset + heads.dynamic.filesz;
    Ok(ImageParts {
        entry: heads.header.entry,
        relocs: relocs_at(alloc, bytes, sizes.relocs / 24)?,
        descriptors: part_of(alloc, bytes, descriptors, descriptors_end)?,
        rodata: part_of(alloc, bytes, rodata, heads.read_only.filesz)?,
        words: words_at(alloc, bytes, heads.code.offset, heads.code.filesz / 4)?,
        filled: part_of(
            alloc,
            bytes,
            filled,
            heads.writable.offset + heads.writable.filesz,
        )?,
        zero_bytes: heads.writable.memsz - heads.writable.filesz,
    })
}

// The bytes from one place to another.
fn part_of(alloc: Global, bytes: &[u8], start: u64, end: u64) -> Result<Bytes, AllocError>
    requires order { start ≤ end }
    requires within { end ≤ length bytes.now }
    ensures { IfOk result (λ b. b ≡ take (end - start) (drop start bytes.now)) }
{
    Bytes::from_slice(alloc, &bytes[start as usize..end as usize])
}

// So many words from a place on.
fn words_at(alloc: Global, bytes: &[u8], at: u64, count: u64) -> Result<Vec<u32>, AllocError>
    requires { at + 4 * count ≤ length bytes.now }
    ensures { IfOk result (λ v. v.items ≡ words_at count at bytes.now) }
{
    let mut words = Vec::new(alloc);
    for i in 0..count {
        words.push(u32_at(bytes, at + 4 * i))?;
    }
    Ok(words)
}

// So many relocations.
fn relocs_at(alloc: Global, bytes: &[u8], count: u64) -> Result<Vec<RelativeReloc>, AllocError>
    requires { 0x140 + 24 * count ≤ length bytes.now }
    ensures { IfOk result (λ v. v.items ≡ relocs_at count 0x140 bytes.now) }
{
    let mut relocs = Vec::new(alloc);
    for i in 0..count {
        relocs.push(reloc_at(bytes, RELOCS_PLACE + 24 * i))?;
    }
    Ok(relocs)
}

fn reloc_at(bytes: &[u8], at: u64) -> RelativeReloc
    requires { at + 24 ≤ length bytes.now }
    ensures { result ≡ reloc_at at bytes.now }
{
    RelativeReloc {
        place: u64_at(bytes, at),
        addend: u64_at(bytes, at + 16).cast_signed(),
    }
}

// The relocations of an image.
ghost use Rattle.std.specs.Prelude.{◌≡◌, ◌≤◌, IfOk, OnOk, length, map};
ghost use Rattle.std.specs.List.{All};
ghost use Rattle.tag_startup.specs.Memory.{CanBeRelocated, IsStored, before, stored};
ghost use Rattle.tag_startup.specs.Relocated.{pointer, relocated_byte, target};

use crate::parts::LOAD_ADDRESS;
use elf_image::RelativeReloc;
use std::alloc::{AllocError, Global};
use tag_mem::TagMemory;

/// Puts its pointer, with its tag, at the place of each relocation.
pub fn relocate<M: TagMemory>(
    alloc: Global,
    memory: &mut M,
    relocs: &[RelativeReloc],
) -> Result<(), AllocError>
    requires { All (CanBeRelocated (M.regions memory.old) (M.guard memory.old)) relocs.now }
    ensures { OnOk result
        (IsStored M.TagMemory memory.old memory.new (relocated_byte (before M.TagMemory memory.old) relocs.now)) }
{
    // All pointers are made before the first is put, since each takes what its place holds before any relocation.
    let pointers = pointers_of(alloc, memory, relocs)?;
    put_pointers(memory, relocs, &pointers);
    Ok(())
}

// The pointer of each relocation.
fn pointers_of<M: TagMemory>(
    alloc: Global,
    memory: &M,
    relocs: &[RelativeReloc],
) -> Result<Vec<u64>, AllocError>
    requires { All (CanBeRelocated (M.regions memory.now) (M.guard memory.now)) relocs.now }
    ensures { IfOk result (λ v. v.items ≡ map (pointer (before M.TagMemory memory.now)) relocs.now) }
{
    let mut pointers = Vec::new(alloc);
    for reloc in relocs {
        pointers.push(pointer(memory, reloc))?;
    }
    Ok(pointers)
}

// The pointer that the place of a relocation gets: the load address plus the addend, with the tag that the memory has there, or
// at the distance from there that the place holds.
fn pointer<M: TagMemory>(memory: &M, reloc: &RelativeReloc) -> u64
    requires { CanBeRelocated (M.regions memory.now) (M.guard memory.now) reloc.now }
    ensures { result ≡ pointer (before M.TagMemory memory.now) reloc.now }
{
    let mut content = [0; 8];
    memory.read(LOAD_ADDRESS + reloc.place, &mut content);
    let target = target(reloc);
    match memory.tag(target.wrapping_add(u64::from_le_bytes(content))) {
        Some(tag) => target.wrapping_add(u64::from(tag.value()) << 56),
        None => target,
    }
}

// The load address plus the addend of a relocation.
fn target(reloc: &RelativeReloc) -> u64
    ensures { result ≡ target reloc.now }
{
    LOAD_ADDRESS.wrapping_add(reloc.addend.cast_unsigned())
}

// Puts each pointer at the place of its relocation, in order.
fn put_pointers<M: TagMemory>(memory: &mut M, relocs: &[RelativeReloc], pointers: &[u64])
    requires same { length pointers.now ≡ length relocs.now }
    requires places { All (CanBeRelocated (M.regions memory.old) (M.guard memory.old)) relocs.now }
    ensures { IsStored M.TagMemory memory.old memory.new (stored (M.byte memory.old) relocs.now pointers.now) }
{
    for i in 0..relocs.len() {
        memory.write(LOAD_ADDRESS + relocs[i].place, &pointers[i].to_le_bytes());
    }
}

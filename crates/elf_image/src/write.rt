ghost use Rattle.std.specs.Prelude.{◌≡◌, ◌++◌, OnOk, IfOk};
ghost use Rattle.elf_base.specs.Field.{bytes_of};
ghost use Rattle.elf_base.specs.Records.{phdr_fields};
ghost use Rattle.elf_image.specs.Image.{image_of};
ghost use Rattle.elf_image.specs.ImageFile.{ImageFile};
ghost use Rattle.elf_base.specs.Laying.{put, put_all};
ghost use Rattle.elf_base.specs.Layout.{piece};
ghost use Rattle.elf_image.specs.LoadedBytes.{read_only_bytes, code_bytes, writable_bytes};
ghost use Rattle.elf_image.specs.Pieces.{entries_bytes, header_pieces, table_pieces, descriptor_entries};
ghost use Rattle.elf_image.specs.Places.{IsValid, descriptors_place};

use crate::layout::{RELOCS_PLACE, SYMBOLS_PLACE};
use crate::parts::ImageParts;
use crate::put::{push_entries, put_relocs};
use crate::records::{
    code_with, described_entries, dynamic_at, header_with, last_entries, mode_entries,
    read_only_with, table_entries, writable_with,
};
use elf_base::{Phdr, pad_to, put_bytes, put_words, write_ehdr, write_phdr};
use std::alloc::{AllocError, Global};

/// The one file of the parts, which are valid: `filled` and the zero bytes are whole granules of 16 bytes, and
/// the image takes at most 256 MiB of memory. docs/FILES.md shows the file.
pub fn write_image(alloc: Global, parts: &ImageParts) -> Result<Vec<u8>, AllocError>
    requires { IsValid (image_of parts.now) }
    ensures { IfOk result (λ v. ImageFile (image_of parts.now) v.items) }
{
    let mut out = read_only_bytes(alloc, parts)?;
    pad_to(&mut out, parts.code_place())?;
    push_code(&mut out, parts)?;
    pad_to(&mut out, parts.dynamic_place())?;
    push_writable(&mut out, parts)?;
    Ok(out)
}

/// The bytes of the part that is only read, which begins the file: up to `rodata_end`.
pub fn read_only_bytes(alloc: Global, parts: &ImageParts) -> Result<Vec<u8>, AllocError>
    requires { IsValid (image_of parts.now) }
    ensures { IfOk result (λ v. v.items ≡ read_only_bytes (image_of parts.now)) }
{
    let mut out = Vec::new(alloc);
    put_headers(&mut out, parts)?;
    put_tables(&mut out, parts)?;
    Ok(out)
}

/// The bytes of the code, which has its place from `code_place` to `code_end`, at the end of others.
pub fn push_code(out: &mut Vec<u8>, parts: &ImageParts) -> Result<(), AllocError>
    ensures { OnOk result (out.new.items ≡ out.old.items ++ code_bytes (image_of parts.now)) }
{
    // No zeros stand before what is put at place 0.
    put_words(out, 0, &parts.words)?;
    Ok(())
}

/// The bytes of the writable part, which has its place from `dynamic_place` on, at the end of others. In memory
/// the zero bytes follow, up to `memory_end`.
pub fn push_writable(out: &mut Vec<u8>, parts: &ImageParts) -> Result<(), AllocError>
    requires { IsValid (image_of parts.now) }
    ensures { OnOk result (out.new.items ≡ out.old.items ++ writable_bytes (image_of parts.now)) }
{
    push_entries(out, &table_entries(parts.reloc_bytes()))?;
    push_entries(out, &mode_entries())?;
    push_descriptors(out, parts)?;
    push_entries(out, &last_entries())?;
    put_bytes(out, 0, parts.filled.as_slice())?;
    Ok(())
}

// The header and the program headers.
fn put_headers(out: &mut Vec<u8>, parts: &ImageParts) -> Result<(), AllocError>
    requires { IsValid (image_of parts.now) }
    ensures { OnOk result (out.new.items
        ≡ put_all (header_pieces (image_of parts.now)) out.old.items) }
{
    let mut bytes = [0; 64];
    write_ehdr(&header_with(parts.entry), &mut bytes);
    put_bytes(out, 0, &bytes)?;
    let read_only = parts.rodata_end();
    put_segment(out, 64, &read_only_with(read_only))?;
    let code = parts.code_bytes();
    put_segment(out, 120, &code_with(parts.code_place(), code))?;
    let dynamic = parts.dynamic_place();
    let filesz = parts.file_end() - dynamic;
    let memsz = parts.memory_end() - dynamic;
    put_segment(out, 176, &writable_with(dynamic, filesz, memsz))?;
    put_segment(out, 232, &dynamic_at(dynamic, parts.dynamic_bytes()))?;
    Ok(())
}

fn put_segment(out: &mut Vec<u8>, place: u64, segment: &Phdr) -> Result<(), AllocError>
    ensures { OnOk result (out.new.items
        ≡ put (piece place (bytes_of (phdr_fields segment.now))) out.old.items) }
{
    let mut bytes = [0; 56];
    write_phdr(segment, &mut bytes);
    put_bytes(out, place, &bytes)
}

// The symbol and string tables, the relocations, the descriptors and the read-only data.
fn put_tables(out: &mut Vec<u8>, parts: &ImageParts) -> Result<(), AllocError>
    requires { IsValid (image_of parts.now) }
    ensures { OnOk result (out.new.items
        ≡ put_all (table_pieces (image_of parts.now)) out.old.items) }
{
    put_bytes(out, SYMBOLS_PLACE, &[0; 25])?;
    put_relocs(out, RELOCS_PLACE, &parts.relocs)?;
    put_bytes(out, parts.descriptors_place(), parts.descriptors.as_slice())?;
    put_bytes(out, parts.rodata_place(), parts.rodata.as_slice())?;
    Ok(())
}

// The entries that say where the descriptors are, where there are any.
#[tactic(auto, unfolding(crate::specs::Pieces::entries_bytes))]
fn push_descriptors(out: &mut Vec<u8>, parts: &ImageParts) -> Result<(), AllocError>
    requires { IsValid (image_of parts.now) }
    ensures { OnOk result (out.new.items
        ≡ out.old.items ++ entries_bytes (descriptor_entries (descriptors_place (image_of parts.now)) parts.now.descriptors)) }
{
    match parts.descriptors.as_slice() {
        [] => Ok(()),
        descriptors => push_entries(
            out,
            &described_entries(parts.descriptors_place(), descriptors.len() as u64),
        ),
    }
}

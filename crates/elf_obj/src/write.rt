ghost use Rattle.std.specs.Prelude.{◌≡◌, ◌<◌, ◌^◌, ◌∷◌, ◌++◌, take, drop, replicate, IfOk, OnOk};
ghost use Rattle.elf_base.specs.Field.{bytes_of};
ghost use Rattle.elf_base.specs.Records.{ehdr_fields, shdr_fields};
ghost use Rattle.std.specs.List.{flat_map};
ghost use Rattle.elf_obj.specs.Object.{object_of};
ghost use Rattle.elf_obj.specs.ObjectFile.{NamesFit, NumbersFit, IsValid, ObjectFile};
ghost use Rattle.elf_obj.specs.Sections.{sections, headers_place, header_of, headers_of};
ghost use Rattle.elf_obj.specs.Records.{header, symbols_bytes, name_bytes};
ghost use Rattle.elf_obj.specs.Contents.{contents, header_bytes};
ghost use Rattle.elf_obj.specs.Laying.{put_next, put_contents};

use crate::headers::{SECTION_NAMES, file_header, header_of};
use crate::parts::{ObjectParts, Symbol};
use crate::put::{push_bytes, push_relocs, push_tags, push_words, put_names, put_symbols};
use crate::section::{Section, section_at};
use crate::sizes::{Sizes, sizes_of};
use elf_base::{write_ehdr, write_shdr};
use mt_base::round16;
use std::alloc::{AllocError, Global};

/// The one file of the parts, which are valid. docs/FILES.md has the rules and shows the file.
pub fn write_object(alloc: Global, parts: &ObjectParts) -> Result<Vec<u8>, AllocError>
    requires { IsValid (object_of parts.now) }
    ensures { IfOk result (λ v. ObjectFile (object_of parts.now) v.items) }
{
    let sizes = sizes_of(parts);
    let mut out = Vec::new(alloc);
    put_header(&mut out, headers_place(&sizes))?;
    put_loaded(&mut out, parts)?;
    put_tables(&mut out, parts)?;
    put_end(&mut out, &sizes)?;
    Ok(out)
}

// Where the section headers begin.
#[tactic(auto, unfolding(crate::specs::Sections::headers_place))]
fn headers_place(sizes: &Sizes) -> u64
    requires { headers_place sizes.now < 2 ^ 63 }
    ensures { result ≡ headers_place sizes.now }
{
    let mut end: u64 = 64;
    for index in 0..11 {
        let section = section_at(sizes, index);
        end = round16(end) + section.bytes;
    }
    round16(end)
}

// The header of the file.
fn put_header(out: &mut Vec<u8>, place: u64) -> Result<(), AllocError>
    ensures { OnOk result (out.new.items ≡ out.old.items ++ bytes_of (ehdr_fields (header place))) }
{
    let mut bytes = [0; 64];
    write_ehdr(&file_header(place), &mut bytes);
    out.extend_from_slice(&bytes)?;
    Ok(())
}

// The contents of the sections 1 to 4.
fn put_loaded(out: &mut Vec<u8>, parts: &ObjectParts) -> Result<(), AllocError>
    ensures { OnOk result (out.new.items
        ≡ put_contents (take 4 (contents (object_of parts.now))) out.old.items) }
{
    push_words(out, &parts.words)?;
    push_bytes(out, parts.rodata.as_slice())?;
    push_bytes(out, parts.init_bytes.as_slice())?;
    push_bytes(out, &[])?;
    Ok(())
}

// The contents of the sections 5 to 11.
fn put_tables(out: &mut Vec<u8>, parts: &ObjectParts) -> Result<(), AllocError>
    requires { NumbersFit (object_of parts.now) }
    ensures { OnOk result (out.new.items
        ≡ put_contents (drop 4 (contents (object_of parts.now))) out.old.items) }
{
    push_symbols(out, &parts.symbols)?;
    push_names(out, &parts.symbols)?;
    push_bytes(out, &SECTION_NAMES)?;
    push_relocs(out, &parts.text_relocs)?;
    push_relocs(out, &parts.init_relocs)?;
    push_bytes(out, &[])?;
    push_tags(out, &parts.tagged)?;
    Ok(())
}

// The symbol table, which begins with an empty symbol.
fn push_symbols(out: &mut Vec<u8>, symbols: &[Symbol]) -> Result<(), AllocError>
    requires { NamesFit 1 symbols.now }
    ensures { OnOk result (out.new.items ≡ put_next (replicate 24 0 ++ symbols_bytes 1 symbols.now) out.old.items) }
{
    push_bytes(out, &[0; 24])?;
    put_symbols(out, symbols)?;
    Ok(())
}

// The names of the symbols, which begin with a zero byte.
fn push_names(out: &mut Vec<u8>, symbols: &[Symbol]) -> Result<(), AllocError>
    ensures { OnOk result (out.new.items ≡ put_next (0 ∷ flat_map name_bytes symbols.now) out.old.items) }
{
    push_bytes(out, &[0])?;
    put_names(out, symbols)?;
    Ok(())
}

fn put_section_header(out: &mut Vec<u8>, section: &Section, place: u64) -> Result<(), AllocError>
    requires { section.now.info < 2 ^ 32 }
    ensures { OnOk result (out.new.items ≡ out.old.items ++ header_bytes (header_of section.now place)) }
{
    let mut bytes = [0; 64];
    write_shdr(&header_of(section, place), &mut bytes);
    out.extend_from_slice(&bytes)?;
    Ok(())
}

// The section headers, of which the first is empty.
fn put_end(out: &mut Vec<u8>, sizes: &Sizes) -> Result<(), AllocError>
    requires small { headers_place sizes.now < 2 ^ 63 }
    requires globals { sizes.now.first_global < 2 ^ 32 }
    ensures { OnOk result (out.new.items
        ≡ put_next (replicate 64 0) out.old.items ++ flat_map header_bytes (headers_of 64 (sections sizes.now))) }
{
    push_bytes(out, &[0; 64])?;
    put_headers(out, sizes)?;
    Ok(())
}

// The headers of the sections 1 to 11.
fn put_headers(out: &mut Vec<u8>, sizes: &Sizes) -> Result<(), AllocError>
    requires small { headers_place sizes.now < 2 ^ 63 }
    requires globals { sizes.now.first_global < 2 ^ 32 }
    ensures { OnOk result (out.new.items
        ≡ out.old.items ++ flat_map header_bytes (headers_of 64 (sections sizes.now))) }
{
    let mut end: u64 = 64;
    for index in 0..11 {
        let section = section_at(sizes, index);
        let place = round16(end);
        put_section_header(out, &section, place)?;
        end = place + section.bytes;
    }
    Ok(())
}

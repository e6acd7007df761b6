ghost use Rattle.std.specs.Prelude.{◌≡◌, ◌<◌, ◌^◌};
ghost use Rattle.elf_obj.specs.Sections.{header_of};
ghost use Rattle.elf_obj.specs.Records.{header};

use crate::section::Section;
use elf_base::{Ehdr, IDENTIFICATION, Shdr};

/// The names of the sections, as they stand in `.shstrtab`.
pub(crate) const SECTION_NAMES: [u8; 125] =
    *b"\0.text\0.rodata\0.data\0.bss\0.symtab\0.strtab\0.shstrtab\0.rela.text\0.rela.data\0.memtag.globals.static\0.rela.memtag.globals.static\0";

/// The header of a file whose section headers begin at a place.
pub(crate) fn file_header(place: u64) -> Ehdr
    ensures { result ≡ header place }
{
    Ehdr {
        ident: IDENTIFICATION,
        kind: 1,
        machine: 183,
        version: 1,
        entry: 0,
        phoff: 0,
        shoff: place,
        flags: 0,
        ehsize: 64,
        phentsize: 0,
        phnum: 0,
        shentsize: 64,
        shnum: 12,
        shstrndx: 7,
    }
}

/// The header of a section whose content begins at a place.
pub(crate) fn header_of(section: &Section, place: u64) -> Shdr
    requires { section.now.info < 2 ^ 32 }
    ensures { result ≡ header_of section.now place }
{
    Shdr {
        name: section.name,
        kind: section.kind,
        flags: section.flags,
        addr: 0,
        offset: place,
        size: section.size,
        link: section.link,
        info: section.info as u32,
        addralign: 16,
        entsize: section.entsize,
    }
}

// The records of an image: its header, its program headers and its dynamic entries. Each field stands here, for the writer as for
// the reader.
ghost use Rattle.std.specs.Prelude.{◌≡◌};
ghost use Rattle.elf_image.specs.Records.{header_with, read_only_with, code_with, writable_with, dynamic_at, table_entries, mode_entries};
ghost use Rattle.elf_image.specs.Records.{described_entries, last_entries, load};

use crate::layout::{RELOCS_PLACE, STRINGS_PLACE, SYMBOLS_PLACE};
use elf_base::{Dyn, Ehdr, IDENTIFICATION, Phdr};

/// The info of a Rela record with symbol 0 and the type R_AARCH64_RELATIVE.
pub(crate) const RELATIVE: u64 = 1027;

/// The file's header, with its entry.
pub(crate) fn header_with(entry: u64) -> Ehdr
    ensures { result ≡ header_with entry }
{
    Ehdr {
        ident: IDENTIFICATION,
        kind: 3,
        machine: 183,
        version: 1,
        entry,
        phoff: 64,
        shoff: 0,
        flags: 0,
        ehsize: 64,
        phentsize: 56,
        phnum: 4,
        shentsize: 0,
        shnum: 0,
        shstrndx: 0,
    }
}

/// A part that is loaded at its place: PT_LOAD, with its flags.
fn load(flags: u32, place: u64, filesz: u64, memsz: u64) -> Phdr
    ensures { result ≡ load flags place filesz memsz }
{
    Phdr {
        kind: 1,
        flags,
        offset: place,
        vaddr: place,
        paddr: place,
        filesz,
        memsz,
        align: 4096,
    }
}

/// The first part, which is only read, by its bytes.
pub(crate) fn read_only_with(bytes: u64) -> Phdr
    ensures { result ≡ read_only_with bytes }
{
    load(4, 0, bytes, bytes)
}

/// The code, by its place and its bytes.
pub(crate) fn code_with(place: u64, bytes: u64) -> Phdr
    ensures { result ≡ code_with place bytes }
{
    load(5, place, bytes, bytes)
}

/// The writable part, by its place, its bytes in the file and those in memory.
pub(crate) fn writable_with(place: u64, filesz: u64, memsz: u64) -> Phdr
    ensures { result ≡ writable_with place filesz memsz }
{
    load(6, place, filesz, memsz)
}

/// The dynamic entries, PT_DYNAMIC, by their place and bytes.
pub(crate) fn dynamic_at(place: u64, bytes: u64) -> Phdr
    ensures { result ≡ dynamic_at place bytes }
{
    Phdr {
        kind: 2,
        flags: 6,
        offset: place,
        vaddr: place,
        paddr: place,
        filesz: bytes,
        memsz: bytes,
        align: 8,
    }
}

/// The dynamic entries STRTAB, SYMTAB, STRSZ, SYMENT, RELA and RELASZ, by how many bytes the relocations have.
pub(crate) fn table_entries(relocs: u64) -> [Dyn; 6]
    ensures { result ≡ table_entries relocs }
{
    [
        Dyn {
            tag: 5,
            value: STRINGS_PLACE,
        },
        Dyn {
            tag: 6,
            value: SYMBOLS_PLACE,
        },
        Dyn { tag: 10, value: 1 },
        Dyn { tag: 11, value: 24 },
        Dyn {
            tag: 7,
            value: RELOCS_PLACE,
        },
        Dyn {
            tag: 8,
            value: relocs,
        },
    ]
}

/// RELAENT, then AARCH64_MEMTAG_MODE (synchronous), MEMTAG_HEAP (no) and MEMTAG_STACK (yes).
pub(crate) fn mode_entries() -> [Dyn; 4]
    ensures { result ≡ mode_entries }
{
    [
        Dyn { tag: 9, value: 24 },
        Dyn {
            tag: 0x7000_0009,
            value: 0,
        },
        Dyn {
            tag: 0x7000_000b,
            value: 0,
        },
        Dyn {
            tag: 0x7000_000c,
            value: 1,
        },
    ]
}

/// AARCH64_MEMTAG_GLOBALS and GLOBALSSZ: where the descriptors are and how many bytes they have.
pub(crate) fn described_entries(place: u64, bytes: u64) -> [Dyn; 2]
    ensures { result ≡ described_entries place bytes }
{
    [
        Dyn {
            tag: 0x7000_000d,
            value: place,
        },
        Dyn {
            tag: 0x7000_000f,
            value: bytes,
        },
    ]
}

/// NULL.
pub(crate) fn last_entries() -> [Dyn; 1]
    ensures { result ≡ last_entries }
{
    [Dyn { tag: 0, value: 0 }]
}

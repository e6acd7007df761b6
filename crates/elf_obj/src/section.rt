ghost use Rattle.std.specs.Prelude.{◌≡◌, ◌<◌, ◌^◌, Some, slice_get};
ghost use Rattle.elf_obj.specs.Sections.{plain, without_bytes, table, sections};

use crate::sizes::Sizes;

/// What the header of a section says, but for its place.
#[derive(Clone, Copy)]
pub struct Section {
    /// Where its name stands in `.shstrtab`.
    pub name: u32,
    pub kind: u32,
    pub flags: u64,
    /// How many bytes it has in the file.
    pub bytes: u64,
    /// How many bytes it has when it is loaded.
    pub size: u64,
    pub link: u32,
    pub info: u64,
    pub entsize: u64,
}

// A section whose bytes are in the file, without entries.
fn plain(name: u32, kind: u32, flags: u64, size: u64) -> Section
    ensures { result ≡ plain name kind flags size }
{
    Section {
        name,
        kind,
        flags,
        bytes: size,
        size,
        link: 0,
        info: 0,
        entsize: 0,
    }
}

// A section whose bytes are not in the file.
fn without_bytes(name: u32, kind: u32, flags: u64, size: u64) -> Section
    ensures { result ≡ without_bytes name kind flags size }
{
    Section {
        name,
        kind,
        flags,
        bytes: 0,
        size,
        link: 0,
        info: 0,
        entsize: 0,
    }
}

// A section of entries of 24 bytes.
fn table(name: u32, kind: u32, size: u64, link: u32, info: u64) -> Section
    ensures { result ≡ table name kind size link info }
{
    Section {
        name,
        kind,
        flags: 0,
        bytes: size,
        size,
        link,
        info,
        entsize: 24,
    }
}

/// The sections 1 to 11 of an object, from 0 on.
pub(crate) fn section_at(sizes: &Sizes, index: usize) -> Section
    requires { index < 11 }
    ensures is { slice_get (sections sizes.now) index ≡ Some result }
    ensures size { result.size < 2 ^ 64 }
    ensures info { sizes.now.first_global < 2 ^ 32 → result.info < 2 ^ 32 }
{
    match index {
        0 => plain(1, 1, 6, sizes.text),
        1 => plain(7, 1, 2, sizes.rodata),
        2 => plain(15, 1, 3, sizes.init),
        3 => without_bytes(21, 8, 3, sizes.zero),
        4 => table(26, 2, sizes.symbols, 6, sizes.first_global),
        5 => plain(34, 3, 0, sizes.strings),
        6 => plain(42, 3, 0, 125),
        7 => table(52, 4, sizes.text_relocs, 5, 1),
        8 => table(63, 4, sizes.init_relocs, 5, 3),
        9 => without_bytes(74, 0x7000_0007, 0, 0),
        _ => table(97, 4, sizes.tagged, 5, 10),
    }
}

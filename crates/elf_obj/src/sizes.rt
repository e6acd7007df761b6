ghost use Rattle.std.specs.Prelude.{◌≡◌, ◌<◌, ◌^◌, length};
ghost use Rattle.elf_obj.specs.Object.{object_of};
ghost use Rattle.elf_obj.specs.Small.{IsSmall};
ghost use Rattle.elf_obj.specs.Sections.{names_end, first_global, sizes_of};

use crate::parts::{ObjectParts, Symbol};

/// How much each part of an object is, which decides where the others stand.
#[derive(Clone, Copy)]
pub struct Sizes {
    /// The bytes of the instructions.
    pub text: u64,
    pub rodata: u64,
    pub init: u64,
    pub zero: u64,
    /// The bytes of the symbol table, with the symbol 0.
    pub symbols: u64,
    /// The number in the file of the first symbol that is not local.
    pub first_global: u64,
    /// The bytes of the symbols' names.
    pub strings: u64,
    /// The bytes of the relocations of the instructions, of the filled data and of the tagged objects.
    pub text_relocs: u64,
    pub init_relocs: u64,
    pub tagged: u64,
}

// The number of the first symbol that is not local, counted from 1.
fn first_global(symbols: &[Symbol]) -> u64
    ensures { result ≡ first_global 1 symbols.now }
{
    let mut number: u64 = 1;
    for symbol in symbols {
        if !symbol.local {
            break;
        }
        number += 1;
    }
    number
}

// Where the names of the symbols end, which begin behind a zero byte.
fn names_end(symbols: &[Symbol]) -> u64
    requires { names_end 1 symbols.now < 2 ^ 64 }
    ensures { result ≡ names_end 1 symbols.now }
{
    let mut place: u64 = 1;
    for symbol in symbols {
        place += symbol.name.as_slice().len() as u64 + 1;
    }
    place
}

/// The sizes of the parts of an object.
pub(crate) fn sizes_of(parts: &ObjectParts) -> Sizes
    requires { IsSmall (object_of parts.now) }
    ensures { result ≡ sizes_of (object_of parts.now) }
{
    Sizes {
        text: 4 * parts.words.len() as u64,
        rodata: parts.rodata.as_slice().len() as u64,
        init: parts.init_bytes.as_slice().len() as u64,
        zero: parts.zero_bytes,
        symbols: 24 * (parts.symbols.len() as u64 + 1),
        first_global: first_global(&parts.symbols),
        strings: names_end(&parts.symbols),
        text_relocs: 24 * parts.text_relocs.len() as u64,
        init_relocs: 24 * parts.init_relocs.len() as u64,
        tagged: 24 * parts.tagged.len() as u64,
    }
}

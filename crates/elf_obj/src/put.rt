ghost use Rattle.std.specs.Prelude.{◌≡◌, ◌+◌, ◌<◌, ◌^◌, ◌++◌, length, OnOk};
ghost use Rattle.std.specs.List.{flat_map};
ghost use Rattle.mt_base.specs.Granules.{round16};
ghost use Rattle.elf_base.specs.Field.{bytes_of};
ghost use Rattle.elf_base.specs.Layout.{piece, word_bytes};
ghost use Rattle.elf_base.specs.Laying.{put};
ghost use Rattle.elf_base.specs.Records.{sym_fields, rela_fields};
ghost use Rattle.elf_obj.specs.ObjectFile.{NamesFit, AllCounted, AllNumbered};
ghost use Rattle.elf_obj.specs.Records.{home_number, type_of, symbol_record, reloc_record, tag_record, symbols_bytes, reloc_bytes};
ghost use Rattle.elf_obj.specs.Records.{tag_bytes, name_bytes};
ghost use Rattle.elf_obj.specs.Laying.{put_next};

use crate::parts::{Home, Reloc, Symbol};
use elf_base::{Rela, Sym, pad_to, put_bytes, put_words, write_rela, write_sym};
use mt_base::round16;
use std::alloc::AllocError;

// The next multiple of 16 behind some bytes.
pub(crate) fn next_place(out: &[u8]) -> u64
    ensures { result ≡ round16 (length out.now) }
{
    round16(out.len() as u64)
}

// Bytes at the next multiple of 16, with zeros before.
#[tactic(auto, unfolding(crate::specs::Laying::put_next))]
pub(crate) fn push_bytes(out: &mut Vec<u8>, bytes: &[u8]) -> Result<(), AllocError>
    ensures { OnOk result (out.new.items ≡ put_next bytes.now out.old.items) }
{
    let place = next_place(out);
    put_bytes(out, place, bytes)
}

// Instructions at the next multiple of 16.
#[tactic(auto, unfolding(crate::specs::Laying::put_next))]
pub(crate) fn push_words(out: &mut Vec<u8>, words: &[u32]) -> Result<(), AllocError>
    ensures { OnOk result (out.new.items ≡ put_next (flat_map word_bytes words.now) out.old.items) }
{
    let place = next_place(out);
    put_words(out, place, words)
}

/// The number of a symbol's section, 0 for none.
pub(crate) fn home_number(home: Home) -> u16
    ensures { result ≡ home_number home }
{
    match home {
        Home::Undef => 0,
        Home::Text => 1,
        Home::Rodata => 2,
        Home::Init => 3,
        Home::Zero => 4,
    }
}

/// The type of a symbol: none where it is not defined, else a function or an object.
pub(crate) fn type_of(home: Home, function: bool) -> u8
    ensures is { result ≡ type_of home function }
    ensures small { result < 3 }
{
    match home {
        Home::Undef => 0,
        _ => { if function { 2 } else { 1 } }
    }
}

/// The record of a symbol whose name stands at a place of `.strtab`.
pub(crate) fn symbol_record(place: u32, symbol: &Symbol) -> Sym
    ensures { result ≡ symbol_record place symbol.now }
{
    let binding = if symbol.local { 0 } else { 16 };
    Sym {
        name: place,
        info: binding + type_of(symbol.home, symbol.function),
        other: 0,
        shndx: home_number(symbol.home),
        value: symbol.value,
        size: symbol.size,
    }
}

fn put_symbol(out: &mut Vec<u8>, place: u32, symbol: &Symbol) -> Result<(), AllocError>
    ensures { OnOk result (out.new.items
        ≡ out.old.items ++ bytes_of (sym_fields (symbol_record place symbol.now))) }
{
    let mut bytes = [0; 24];
    write_sym(&symbol_record(place, symbol), &mut bytes);
    out.extend_from_slice(&bytes)?;
    Ok(())
}

// The records of symbols whose names stand one behind the other from place 1 of `.strtab` on.
pub(crate) fn put_symbols(out: &mut Vec<u8>, symbols: &[Symbol]) -> Result<(), AllocError>
    requires { NamesFit 1 symbols.now }
    ensures { OnOk result (out.new.items ≡ out.old.items ++ symbols_bytes 1 symbols.now) }
{
    let mut place: u64 = 1;
    for symbol in symbols {
        put_symbol(out, place as u32, symbol)?;
        place += symbol.name.as_slice().len() as u64 + 1;
    }
    Ok(())
}

// The names of symbols, each with a zero byte behind it.
pub(crate) fn put_names(out: &mut Vec<u8>, symbols: &[Symbol]) -> Result<(), AllocError>
    ensures { OnOk result (out.new.items ≡ out.old.items ++ flat_map name_bytes symbols.now) }
{
    for symbol in symbols {
        out.extend_from_slice(symbol.name.as_slice())?;
        out.push(0)?;
    }
    Ok(())
}

// A relocation's record.
fn put_rela(out: &mut Vec<u8>, rela: &Rela) -> Result<(), AllocError>
    ensures { OnOk result (out.new.items ≡ out.old.items ++ bytes_of (rela_fields rela.now)) }
{
    let mut bytes = [0; 24];
    write_rela(rela, &mut bytes);
    out.extend_from_slice(&bytes)?;
    Ok(())
}

/// The record of a relocation, whose symbol is counted from 1 in the file.
pub(crate) fn rela_of(reloc: &Reloc) -> Rela
    requires { reloc.now.symbol + 1 < 2 ^ 32 }
    ensures { result ≡ reloc_record reloc.now }
{
    let number = u64::from(reloc.symbol) + 1;
    Rela {
        offset: reloc.offset,
        info: 0x1_0000_0000 * number + u64::from(reloc.kind),
        addend: reloc.addend,
    }
}

#[tactic(auto, unfolding(crate::specs::Records::reloc_bytes))]
fn put_reloc(out: &mut Vec<u8>, reloc: &Reloc) -> Result<(), AllocError>
    requires { reloc.now.symbol + 1 < 2 ^ 32 }
    ensures { OnOk result (out.new.items ≡ out.old.items ++ reloc_bytes reloc.now) }
{
    put_rela(out, &rela_of(reloc))
}

// Relocations at the next multiple of 16.
#[tactic(auto, unfolding(crate::specs::Laying::put_next))]
pub(crate) fn push_relocs(out: &mut Vec<u8>, relocs: &[Reloc]) -> Result<(), AllocError>
    requires { AllCounted relocs.now }
    ensures { OnOk result (out.new.items ≡ put_next (flat_map reloc_bytes relocs.now) out.old.items) }
{
    let place = next_place(out);
    pad_to(out, place)?;
    for reloc in relocs {
        put_reloc(out, reloc)?;
    }
    Ok(())
}

/// The record that names a tagged symbol.
pub(crate) fn tag_rela(tag: u32) -> Rela
    requires { tag + 1 < 2 ^ 32 }
    ensures { result ≡ tag_record tag }
{
    let number = u64::from(tag) + 1;
    Rela {
        offset: 0,
        info: 0x1_0000_0000 * number,
        addend: 0,
    }
}

#[tactic(auto, unfolding(crate::specs::Records::tag_bytes))]
fn put_tag(out: &mut Vec<u8>, tag: u32) -> Result<(), AllocError>
    requires { tag + 1 < 2 ^ 32 }
    ensures { OnOk result (out.new.items ≡ out.old.items ++ tag_bytes tag) }
{
    put_rela(out, &tag_rela(tag))
}

// The relocations that name tagged symbols, at the next multiple of 16.
#[tactic(auto, unfolding(crate::specs::Laying::put_next))]
pub(crate) fn push_tags(out: &mut Vec<u8>, tagged: &[u32]) -> Result<(), AllocError>
    requires { AllNumbered tagged.now }
    ensures { OnOk result (out.new.items ≡ put_next (flat_map tag_bytes tagged.now) out.old.items) }
{
    let place = next_place(out);
    pad_to(out, place)?;
    for tag in tagged {
        put_tag(out, *tag)?;
    }
    Ok(())
}

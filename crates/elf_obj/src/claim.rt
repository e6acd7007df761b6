ghost use Rattle.std.specs.Prelude.{◌≡◌, ◌+◌, ◌*◌, ◌<◌, ◌≤◌, length, take, drop, IfOk};
ghost use Rattle.elf_obj.specs.Object.{object_of};
ghost use Rattle.elf_obj.specs.Claimed.{headers_at, offset_of, size_of, content_of, words_at, name_first, after_name, names_in, home_of};
ghost use Rattle.elf_obj.specs.Claimed.{symbol_at, symbols_at, reloc_at, relocs_at, tag_at, tags_at, claimed};
ghost use Rattle.elf_obj.specs.Laws.Held.{AreHeld};

use crate::file::{content_of, offset_of, size_of};
use crate::parts::{Home, ObjectParts, Reloc, Symbol};
use elf_base::{Bytes, Name, u8_at, u16_at, u32_at, u64_at};
use std::alloc::{AllocError, Global};

// So many words from a place on.
fn words_at(alloc: Global, file: &[u8], at: u64, count: u64) -> Result<Vec<u32>, AllocError>
    requires { at + 4 * count ≤ length file.now }
    ensures { IfOk result (λ v. v.items ≡ words_at count at file.now) }
{
    let mut words = Vec::new(alloc);
    for index in 0..count {
        words.push(u32_at(file, (at + 4 * index) as usize))?;
    }
    Ok(words)
}

// How many bytes stand before the first zero byte.
fn name_end(bytes: &[u8]) -> usize
    ensures within { result ≤ length bytes.now }
    ensures name { take result bytes.now ≡ name_first bytes.now }
    ensures after { drop (result + 1) bytes.now ≡ after_name bytes.now }
{
    for (index, byte) in bytes.iter().enumerate() {
        if *byte == 0 {
            return index;
        }
    }
    bytes.len()
}

fn home_of(number: u16) -> Home
    ensures { result ≡ home_of number }
{
    if number == 1 {
        Home::Text
    } else if number == 2 {
        Home::Rodata
    } else if number == 3 {
        Home::Init
    } else if number == 4 {
        Home::Zero
    } else {
        Home::Undef
    }
}

// The symbol of a name that stands at a place.
fn symbol_at(file: &[u8], at: usize, name: Name) -> Symbol
    requires { at + 24 ≤ length file.now }
    ensures { result ≡ symbol_at name at file.now }
{
    let info = u8_at(file, at + 4);
    Symbol {
        name,
        home: home_of(u16_at(file, at + 6)),
        value: u64_at(file, at + 8),
        size: u64_at(file, at + 16),
        local: info < 16,
        function: info % 16 == 2,
    }
}

// Symbols from a place on, with the names with which the strings begin.
fn symbols_at(
    alloc: Global,
    file: &[u8],
    at: u64,
    count: u64,
    strings: &[u8],
) -> Result<Vec<Symbol>, AllocError>
    requires { 1 ≤ count → at + 24 * count ≤ length file.now }
    ensures { IfOk result (λ v. v.items ≡ symbols_at (names_in count strings.now) at file.now) }
{
    let mut symbols = Vec::new(alloc);
    let mut rest = strings;
    for index in 0..count {
        let end = name_end(rest);
        let name = Name::from_slice(alloc, &rest[..end])?;
        symbols.push(symbol_at(file, (at + 24 * index) as usize, name))?;
        rest = after(rest, end);
    }
    Ok(symbols)
}

// What stands behind a name and its zero byte.
fn after(bytes: &[u8], end: usize) -> &[u8]
    requires { end ≤ length bytes.now }
    ensures { result.now ≡ drop (end + 1) bytes.now }
{
    if end == bytes.len() {
        &bytes[end..]
    } else {
        &bytes[end + 1..]
    }
}

fn reloc_at(file: &[u8], at: usize) -> Reloc
    requires { at + 24 ≤ length file.now }
    ensures { result ≡ reloc_at at file.now }
{
    let info = u64_at(file, at + 8);
    Reloc {
        offset: u64_at(file, at),
        kind: (info % 0x1_0000_0000) as u32,
        symbol: (info / 0x1_0000_0000).saturating_sub(1) as u32,
        addend: u64_at(file, at + 16).cast_signed(),
    }
}

// So many relocations from a place on.
fn relocs_at(alloc: Global, file: &[u8], at: u64, count: u64) -> Result<Vec<Reloc>, AllocError>
    requires { at + 24 * count ≤ length file.now }
    ensures { IfOk result (λ v. v.items ≡ relocs_at count at file.now) }
{
    let mut relocs = Vec::new(alloc);
    for index in 0..count {
        relocs.push(reloc_at(file, (at + 24 * index) as usize))?;
    }
    Ok(relocs)
}

fn tag_at(file: &[u8], at: usize) -> u32
    requires { at + 24 ≤ length file.now }
    ensures { result ≡ tag_at at file.now }
{
    let info = u64_at(file, at + 8);
    (info / 0x1_0000_0000).saturating_sub(1) as u32
}

// The numbers of so many tagged symbols, whose relocations begin at a place.
fn tags_at(alloc: Global, file: &[u8], at: u64, count: u64) -> Result<Vec<u32>, AllocError>
    requires { at + 24 * count ≤ length file.now }
    ensures { IfOk result (λ v. v.items ≡ tags_at count at file.now) }
{
    let mut tags = Vec::new(alloc);
    for index in 0..count {
        tags.push(tag_at(file, (at + 24 * index) as usize))?;
    }
    Ok(tags)
}

// The bytes of a content.
fn bytes_at(alloc: Global, file: &[u8], index: u64) -> Result<Bytes, AllocError>
    requires start { 64 ≤ length file.now }
    requires headers { headers_at file.now + 768 ≤ length file.now }
    requires index { index < 12 }
    requires held { offset_of file.now index + size_of file.now index ≤ length file.now }
    ensures { IfOk result (λ b. b ≡ content_of file.now index) }
{
    Bytes::from_slice(alloc, content_of(file, index))
}

// The symbols that the bytes claim.
#[tactic(auto, unfolding(crate::specs::Claimed::names_of))]
fn claimed_symbols(alloc: Global, file: &[u8]) -> Result<Vec<Symbol>, AllocError>
    requires start { 64 ≤ length file.now }
    requires held { AreHeld file.now }
    ensures { IfOk result (λ v. v.items ≡ (claimed file.now).symbols) }
{
    let count = (size_of(file, 5) / 24).saturating_sub(1);
    let strings = content_of(file, 6);
    symbols_at(
        alloc,
        file,
        offset_of(file, 5) + 24,
        count,
        after(strings, 0),
    )
}

// The parts that the bytes claim to be the file of.
pub(crate) fn claimed(alloc: Global, file: &[u8]) -> Result<ObjectParts, AllocError>
    requires start { 64 ≤ length file.now }
    requires held { AreHeld file.now }
    ensures { IfOk result (λ p. object_of p ≡ claimed file.now) }
{
    Ok(ObjectParts {
        words: words_at(alloc, file, offset_of(file, 1), size_of(file, 1) / 4)?,
        rodata: bytes_at(alloc, file, 2)?,
        init_bytes: bytes_at(alloc, file, 3)?,
        zero_bytes: size_of(file, 4),
        symbols: claimed_symbols(alloc, file)?,
        text_relocs: relocs_at(alloc, file, offset_of(file, 8), size_of(file, 8) / 24)?,
        init_relocs: relocs_at(alloc, file, offset_of(file, 9), size_of(file, 9) / 24)?,
        tagged: tags_at(alloc, file, offset_of(file, 11), size_of(file, 11) / 24)?,
    })
}

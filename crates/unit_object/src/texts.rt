//! The texts of a file: their bytes and their symbols.

ghost use Rattle.std.specs.Prelude.{◌≡◌, ◌++◌, ◌+◌, [], true, false, replicate, IfOk, OnOk};
ghost use Rattle.elf_obj.specs.declared.parts.Home.TheVariants.{Rodata};
ghost use Rattle.mt_base.specs.Granules.{round16};
ghost use Rattle.unit_object.specs.Data as spec;
ghost use Rattle.unit_object.specs.Data.{padded};
ghost use Rattle.unit_object.specs.Symbols as symbols;

use c_ast::Bytes;
use elf_base::Name;
use elf_obj::{Home, Symbol};
use mt_base::round16;
use std::alloc::{AllocError, Global};

/// So many bytes in whole granules.
pub fn whole(bytes: u64) -> Result<u64, AllocError>
    ensures { IfOk result (λ n. n ≡ round16 bytes) }
{
    if bytes < 1 << 62 {
        Ok(round16(bytes))
    } else {
        Err(AllocError)
    }
}

/// The place behind so many bytes.
pub fn behind(place: u64, bytes: u64) -> Result<u64, AllocError>
    ensures { IfOk result (λ n. n ≡ place + bytes) }
{
    place.checked_add(bytes).ok_or(AllocError)
}

/// Appends zeros.
pub fn push_zeros(out: &mut Vec<u8>, count: u64) -> Result<(), AllocError>
    ensures { OnOk result (out.new.items ≡ out.old.items ++ replicate count 0) }
{
    for _ in 0..count {
        out.push(0)?;
    }
    Ok(())
}

// Appends a text in whole granules.
fn push_text(out: &mut Vec<u8>, text: &[u8]) -> Result<(), AllocError>
    ensures { OnOk result (out.new.items ≡ out.old.items ++ padded text.now) }
{
    let bytes = text.len() as u64;
    let room = whole(bytes)?;
    out.extend_from_slice(text)?;
    push_zeros(out, room.saturating_sub(bytes))
}

/// The bytes of the texts.
pub fn text_bytes(alloc: Global, texts: &[Bytes]) -> Result<Vec<u8>, AllocError>
    ensures { IfOk result (λ out. out.items ≡ spec.text_bytes texts.now) }
{
    let mut out = Vec::new(alloc);
    for text in texts {
        push_text(&mut out, text.as_slice())?;
    }
    Ok(out)
}

// The symbol of a text at a place.
fn text_symbol(alloc: Global, place: u64, size: u64) -> Symbol
    ensures { result ≡ record { name = []; home = Rodata; value = place; size = size; local = true; function = false } }
{
    Symbol {
        name: Name::new(Vec::new(alloc)),
        home: Home::Rodata,
        value: place,
        size,
        local: true,
        function: false,
    }
}

/// Appends the symbols of the texts.
pub fn push_texts(alloc: Global, made: &mut Vec<Symbol>, texts: &[Bytes]) -> Result<(), AllocError>
    ensures { OnOk result (made.new.items ≡ made.old.items ++ symbols.text_symbols 0 texts.now) }
{
    let mut place = 0;
    for text in texts {
        let size = whole(text.as_slice().len() as u64)?;
        made.push(text_symbol(alloc, place, size))?;
        place = behind(place, size)?;
    }
    Ok(())
}

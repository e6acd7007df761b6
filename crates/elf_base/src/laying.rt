ghost use Rattle.std.specs.Prelude.{◌≡◌, ◌++◌, OnOk};
ghost use Rattle.std.specs.List.{flat_map};
ghost use Rattle.elf_base.specs.Field.{Field, number, field_bytes};
ghost use Rattle.elf_base.specs.Layout.{piece, word_bytes};
ghost use Rattle.elf_base.specs.Laying.{pad, put};

use std::alloc::AllocError;

/// Zeros up to a place of the file.
#[tactic(auto, unfolding(crate::specs::Laying::pad))]
pub fn pad_to(out: &mut Vec<u8>, place: u64) -> Result<(), AllocError>
    ensures { OnOk result (out.new.items ≡ pad place out.old.items) }
{
    let gap = place.saturating_sub(out.len() as u64);
    for _ in 0..gap {
        out.push(0)?;
    }
    Ok(())
}

/// Bytes at a place of the file, with zeros before.
#[tactic(auto, unfolding(crate::specs::Laying::put))]
pub fn put_bytes(out: &mut Vec<u8>, place: u64, bytes: &[u8]) -> Result<(), AllocError>
    ensures { OnOk result (out.new.items ≡ put (piece place bytes.now) out.old.items) }
{
    pad_to(out, place)?;
    out.extend_from_slice(bytes)?;
    Ok(())
}

/// Instructions at a place of the file, with zeros before.
pub fn put_words(out: &mut Vec<u8>, place: u64, words: &[u32]) -> Result<(), AllocError>
    ensures { OnOk result (out.new.items
        ≡ put (piece place (flat_map word_bytes words.now)) out.old.items) }
{
    pad_to(out, place)?;
    for word in words {
        push_u32(out, *word)?;
    }
    Ok(())
}

// The four bytes of a number at the end.
#[tactic(auto, unfolding(crate::specs::Field::field_bytes))]
fn push_u32(out: &mut Vec<u8>, value: u32) -> Result<(), AllocError>
    ensures { OnOk result (out.new.items ≡ out.old.items ++ field_bytes (number 4 value)) }
{
    out.extend_from_slice(&value.to_le_bytes())?;
    Ok(())
}

/// The eight bytes of a number at the end.
#[tactic(auto, unfolding(crate::specs::Field::field_bytes))]
pub fn push_u64(out: &mut Vec<u8>, value: u64) -> Result<(), AllocError>
    ensures { OnOk result (out.new.items ≡ out.old.items ++ field_bytes (number 8 value)) }
{
    out.extend_from_slice(&value.to_le_bytes())?;
    Ok(())
}

ghost use Rattle.std.specs.Prelude.{◌≡◌, ◌++◌, OnOk};
ghost use Rattle.std.specs.List.{flat_map};
ghost use Rattle.elf_base.specs.Layout.{piece};
ghost use Rattle.elf_base.specs.Laying.{put};
ghost use Rattle.elf_image.specs.Pieces.{reloc_bytes, dyn_bytes, entries_bytes};

use crate::parts::RelativeReloc;
use crate::records::RELATIVE;
use elf_base::{Dyn, pad_to, push_u64, write_dyn};
use std::alloc::AllocError;

// Relocations at a place, as Rela records.
pub(crate) fn put_relocs(
    out: &mut Vec<u8>,
    place: u64,
    relocs: &[RelativeReloc],
) -> Result<(), AllocError>
    ensures { OnOk result (out.new.items
        ≡ put (piece place (flat_map reloc_bytes relocs.now)) out.old.items) }
{
    pad_to(out, place)?;
    for reloc in relocs {
        put_reloc(out, reloc)?;
    }
    Ok(())
}

fn put_reloc(out: &mut Vec<u8>, reloc: &RelativeReloc) -> Result<(), AllocError>
    ensures { OnOk result (out.new.items ≡ out.old.items ++ reloc_bytes reloc.now) }
{
    push_u64(out, reloc.place)?;
    push_u64(out, RELATIVE)?;
    push_u64(out, reloc.addend.cast_unsigned())?;
    Ok(())
}

// Dynamic entries at the end.
pub(crate) fn push_entries(out: &mut Vec<u8>, entries: &[Dyn]) -> Result<(), AllocError>
    ensures { OnOk result (out.new.items ≡ out.old.items ++ entries_bytes entries.now) }
{
    for entry in entries {
        push_entry(out, entry)?;
    }
    Ok(())
}

#[tactic(auto, unfolding(crate::specs::Pieces::dyn_bytes))]
fn push_entry(out: &mut Vec<u8>, entry: &Dyn) -> Result<(), AllocError>
    ensures { OnOk result (out.new.items ≡ out.old.items ++ dyn_bytes entry.now) }
{
    let mut bytes = [0; 16];
    write_dyn(entry, &mut bytes);
    out.extend_from_slice(&bytes)?;
    Ok(())
}

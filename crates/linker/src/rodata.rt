ghost use Rattle.std.specs.Prelude.{◌≡◌, [], length, IfOk, IfErr};
ghost use Rattle.elf_base.specs.Laying.{put_all};
ghost use Rattle.linker.specs.declared.refusal.LinkRefusal.TheVariants.{NoMemory};
ghost use Rattle.linker.specs.Sections.{round_up};
ghost use Rattle.linker.specs.Data.{rodata_pieces};
ghost use Rattle.linker.specs.Known.{objects_of};

use crate::refusal::LinkRefusal;
use elf_base::put_bytes;
use elf_obj::ObjectParts;
use std::alloc::Global;

// The next multiple of 16 behind bytes.
fn next_place(out: &[u8]) -> u64
    ensures { result ≡ round_up 16 (length out.now) }
{
    (out.len() as u64 + 15) / 16 * 16
}

/// The read-only data of the objects, each at the next multiple of 16.
pub(crate) fn rodata_of(alloc: Global, objects: &[ObjectParts]) -> Result<Vec<u8>, LinkRefusal>
    ensures bytes { IfOk result (λ v. v.items ≡ put_all (rodata_pieces (objects_of objects.now)) []) }
    ensures memory { IfErr result (λ r. r ≡ NoMemory) }
{
    let mut out = Vec::new(alloc);
    for parts in objects {
        let so_far = out.as_slice();
        let place = next_place(so_far);
        let bytes = parts.rodata.as_slice();
        put_bytes(&mut out, place, bytes)?;
    }
    Ok(out)
}

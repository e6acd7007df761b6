ghost use Rattle.std.specs.Prelude.{◌≡◌, ◌+◌, ◌<◌, ◌↔◌, Ok, length, IfOk, IfErr, IsErr};
ghost use Rattle.elf_base.specs.Field.{StandsAt, FieldsFit, bytes_of};
ghost use Rattle.elf_base.specs.Records.{rela_fields};

use crate::place::{Short, put_u64, record_at, u64_at};

/// The length of a relocation in bytes (ELF64, `Elf64_Rela`).
pub const RELA_BYTES: u64 = 24;

/// A relocation (ELF64, `Elf64_Rela`): a place, the symbol and the kind of what is put there, and what is added.
#[derive(Clone, Copy)]
pub struct Rela {
    pub offset: u64,
    pub info: u64,
    pub addend: i64,
}

/// The relocation that stands at byte `at`.
pub fn read_rela(bytes: &[u8], at: u64) -> Result<Rela, Short>
    ensures found { IfOk result (λ r. StandsAt bytes.now at (bytes_of (rela_fields r))) }
    ensures only { (r : Rela) → FieldsFit (rela_fields r)
        → StandsAt bytes.now at (bytes_of (rela_fields r)) → result ≡ Ok r }
    ensures short { IsErr result ↔ (length bytes.now < at + RELA_BYTES) }
    ensures end { IfErr result (λ e. e.at ≡ length bytes.now) }
{
    let part = record_at(bytes, at, RELA_BYTES)?;
    Ok(Rela {
        offset: u64_at(part, 0),
        info: u64_at(part, 8),
        addend: u64_at(part, 16).cast_signed(),
    })
}

/// Writes the relocation over `out`, which has its length.
pub fn write_rela(value: &Rela, out: &mut [u8])
    requires { length out.old ≡ RELA_BYTES }
    ensures { out.new ≡ bytes_of (rela_fields value.now) }
{
    put_u64(out, 0, value.offset);
    put_u64(out, 8, value.info);
    put_u64(out, 16, value.addend.cast_unsigned());
}

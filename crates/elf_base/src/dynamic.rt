ghost use Rattle.std.specs.Prelude.{◌≡◌, ◌+◌, ◌<◌, ◌↔◌, Ok, length, IfOk, IfErr, IsErr};
ghost use Rattle.elf_base.specs.Field.{StandsAt, FieldsFit, bytes_of};
ghost use Rattle.elf_base.specs.Records.{dyn_fields};

use crate::place::{Short, put_u64, record_at, u64_at};

/// The length of a dynamic entry in bytes (ELF64, `Elf64_Dyn`).
pub const DYN_BYTES: u64 = 16;

/// An entry of the dynamic segment (ELF64, `Elf64_Dyn`): what it says, and the number or address.
#[derive(Clone, Copy)]
pub struct Dyn {
    pub tag: i64,
    pub value: u64,
}

/// The dynamic entry that stands at byte `at`.
pub fn read_dyn(bytes: &[u8], at: u64) -> Result<Dyn, Short>
    ensures found { IfOk result (λ d. StandsAt bytes.now at (bytes_of (dyn_fields d))) }
    ensures only { (d : Dyn) → FieldsFit (dyn_fields d)
        → StandsAt bytes.now at (bytes_of (dyn_fields d)) → result ≡ Ok d }
    ensures short { IsErr result ↔ (length bytes.now < at + DYN_BYTES) }
    ensures end { IfErr result (λ e. e.at ≡ length bytes.now) }
{
    let part = record_at(bytes, at, DYN_BYTES)?;
    Ok(Dyn {
        tag: u64_at(part, 0).cast_signed(),
        value: u64_at(part, 8),
    })
}

/// Writes the dynamic entry over `out`, which has its length.
pub fn write_dyn(value: &Dyn, out: &mut [u8])
    requires { length out.old ≡ DYN_BYTES }
    ensures { out.new ≡ bytes_of (dyn_fields value.now) }
{
    put_u64(out, 0, value.tag.cast_unsigned());
    put_u64(out, 8, value.value);
}

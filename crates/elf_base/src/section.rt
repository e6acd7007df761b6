ghost use Rattle.std.specs.Prelude.{◌≡◌, ◌+◌, ◌<◌, ◌↔◌, Ok, length, IfOk, IfErr, IsErr};
ghost use Rattle.elf_base.specs.Field.{StandsAt, FieldsFit, bytes_of};
ghost use Rattle.elf_base.specs.Records.{shdr_fields};

use crate::place::{Short, put_u32, put_u64, record_at, u32_at, u64_at};

/// The length of a section header in bytes (ELF64, `Elf64_Shdr`).
pub const SHDR_BYTES: u64 = 64;

/// A section header (ELF64, `Elf64_Shdr`): a part of the file by its content.
#[derive(Clone, Copy)]
pub struct Shdr {
    pub name: u32,
    pub kind: u32,
    pub flags: u64,
    pub addr: u64,
    pub offset: u64,
    pub size: u64,
    pub link: u32,
    pub info: u32,
    pub addralign: u64,
    pub entsize: u64,
}

/// The section header that stands at byte `at`.
pub fn read_shdr(bytes: &[u8], at: u64) -> Result<Shdr, Short>
    ensures found { IfOk result (λ s. StandsAt bytes.now at (bytes_of (shdr_fields s))) }
    ensures only { (s : Shdr) → FieldsFit (shdr_fields s)
        → StandsAt bytes.now at (bytes_of (shdr_fields s)) → result ≡ Ok s }
    ensures short { IsErr result ↔ (length bytes.now < at + SHDR_BYTES) }
    ensures end { IfErr result (λ e. e.at ≡ length bytes.now) }
{
    let part = record_at(bytes, at, SHDR_BYTES)?;
    Ok(Shdr {
        name: u32_at(part, 0),
        kind: u32_at(part, 4),
        flags: u64_at(part, 8),
        addr: u64_at(part, 16),
        offset: u64_at(part, 24),
        size: u64_at(part, 32),
        link: u32_at(part, 40),
        info: u32_at(part, 44),
        addralign: u64_at(part, 48),
        entsize: u64_at(part, 56),
    })
}

/// Writes the section header over `out`, which has its length.
pub fn write_shdr(value: &Shdr, out: &mut [u8])
    requires { length out.old ≡ SHDR_BYTES }
    ensures { out.new ≡ bytes_of (shdr_fields value.now) }
{
    put_u32(out, 0, value.name);
    put_u32(out, 4, value.kind);
    put_u64(out, 8, value.flags);
    put_u64(out, 16, value.addr);
    put_u64(out, 24, value.offset);
    put_u64(out, 32, value.size);
    put_u32(out, 40, value.link);
    put_u32(out, 44, value.info);
    put_u64(out, 48, value.addralign);
    put_u64(out, 56, value.entsize);
}

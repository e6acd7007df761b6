ghost use Rattle.std.specs.Prelude.{◌≡◌, ◌+◌, ◌<◌, ◌↔◌, Ok, length, IfOk, IfErr, IsErr};
ghost use Rattle.elf_base.specs.Field.{StandsAt, FieldsFit, bytes_of};
ghost use Rattle.elf_base.specs.Records.{phdr_fields};

use crate::place::{Short, put_u32, put_u64, record_at, u32_at, u64_at};

/// The length of a program header in bytes (ELF64, `Elf64_Phdr`).
pub const PHDR_BYTES: u64 = 56;

/// A program header (ELF64, `Elf64_Phdr`): a part of the file and where it lies in memory.
#[derive(Clone, Copy)]
pub struct Phdr {
    pub kind: u32,
    pub flags: u32,
    pub offset: u64,
    pub vaddr: u64,
    pub paddr: u64,
    pub filesz: u64,
    pub memsz: u64,
    pub align: u64,
}

/// The program header that stands at byte `at`.
pub fn read_phdr(bytes: &[u8], at: u64) -> Result<Phdr, Short>
    ensures found { IfOk result (λ p. StandsAt bytes.now at (bytes_of (phdr_fields p))) }
    ensures only { (p : Phdr) → FieldsFit (phdr_fields p)
        → StandsAt bytes.now at (bytes_of (phdr_fields p)) → result ≡ Ok p }
    ensures short { IsErr result ↔ (length bytes.now < at + PHDR_BYTES) }
    ensures end { IfErr result (λ e. e.at ≡ length bytes.now) }
{
    let part = record_at(bytes, at, PHDR_BYTES)?;
    Ok(Phdr {
        kind: u32_at(part, 0),
        flags: u32_at(part, 4),
        offset: u64_at(part, 8),
        vaddr: u64_at(part, 16),
        paddr: u64_at(part, 24),
        filesz: u64_at(part, 32),
        memsz: u64_at(part, 40),
        align: u64_at(part, 48),
    })
}

/// Writes the program header over `out`, which has its length.
pub fn write_phdr(value: &Phdr, out: &mut [u8])
    requires { length out.old ≡ PHDR_BYTES }
    ensures { out.new ≡ bytes_of (phdr_fields value.now) }
{
    put_u32(out, 0, value.kind);
    put_u32(out, 4, value.flags);
    put_u64(out, 8, value.offset);
    put_u64(out, 16, value.vaddr);
    put_u64(out, 24, value.paddr);
    put_u64(out, 32, value.filesz);
    put_u64(out, 40, value.memsz);
    put_u64(out, 48, value.align);
}

ghost use Rattle.std.specs.Prelude.{◌≡◌, ◌+◌, ◌<◌, ◌≤◌, ◌↔◌, Ok, length, IfOk, IfErr, IsErr};
ghost use Rattle.elf_base.specs.Field.{Field, raw, field_bytes, StandsAt, FieldsFit, bytes_of};
ghost use Rattle.elf_base.specs.Place.{put_at};
ghost use Rattle.elf_base.specs.Records.{ehdr_fields};

use crate::place::{Short, put_u16, put_u32, put_u64, record_at, u16_at, u32_at, u64_at};

/// The length of the file's header in bytes (ELF64, `Elf64_Ehdr`).
pub const EHDR_BYTES: u64 = 64;

/// The identification that begins a file: its name, 64 bits, little-endian, version 1 (ELF64, `e_ident`).
pub const IDENTIFICATION: [u8; 16] = [0x7f, b'E', b'L', b'F', 2, 1, 1, 0, 0, 0, 0, 0, 0, 0, 0, 0];

/// The header of an ELF64 file (`Elf64_Ehdr`).
#[derive(Clone, Copy)]
pub struct Ehdr {
    pub ident: [u8; 16],
    pub kind: u16,
    pub machine: u16,
    pub version: u32,
    pub entry: u64,
    pub phoff: u64,
    pub shoff: u64,
    pub flags: u32,
    pub ehsize: u16,
    pub phentsize: u16,
    pub phnum: u16,
    pub shentsize: u16,
    pub shnum: u16,
    pub shstrndx: u16,
}

/// The header that stands at byte `at`.
pub fn read_ehdr(bytes: &[u8], at: u64) -> Result<Ehdr, Short>
    ensures found { IfOk result (λ h. StandsAt bytes.now at (bytes_of (ehdr_fields h))) }
    ensures only { (h : Ehdr) → FieldsFit (ehdr_fields h)
        → StandsAt bytes.now at (bytes_of (ehdr_fields h)) → result ≡ Ok h }
    ensures short { IsErr result ↔ (length bytes.now < at + EHDR_BYTES) }
    ensures end { IfErr result (λ e. e.at ≡ length bytes.now) }
{
    let part = record_at(bytes, at, EHDR_BYTES)?;
    let mut ident = [0; 16];
    ident.copy_from_slice(&part[..16]);
    Ok(Ehdr {
        ident,
        kind: u16_at(part, 16),
        machine: u16_at(part, 18),
        version: u32_at(part, 20),
        entry: u64_at(part, 24),
        phoff: u64_at(part, 32),
        shoff: u64_at(part, 40),
        flags: u32_at(part, 48),
        ehsize: u16_at(part, 52),
        phentsize: u16_at(part, 54),
        phnum: u16_at(part, 56),
        shentsize: u16_at(part, 58),
        shnum: u16_at(part, 60),
        shstrndx: u16_at(part, 62),
    })
}

// Writes the identification, with which a header begins.
fn put_ident(out: &mut [u8], ident: &[u8; 16])
    requires { 16 ≤ length out.old }
    ensures len { length ident.now ≡ 16 }
    ensures put { out.new ≡ put_at 0 (field_bytes (raw 16 ident.now)) out.old }
{
    out[..16].copy_from_slice(ident);
}

/// Writes the header over `out`, which has its length.
pub fn write_ehdr(value: &Ehdr, out: &mut [u8])
    requires { length out.old ≡ EHDR_BYTES }
    ensures { out.new ≡ bytes_of (ehdr_fields value.now) }
{
    put_ident(out, &value.ident);
    put_u16(out, 16, value.kind);
    put_u16(out, 18, value.machine);
    put_u32(out, 20, value.version);
    put_u64(out, 24, value.entry);
    put_u64(out, 32, value.phoff);
    put_u64(out, 40, value.shoff);
    put_u32(out, 48, value.flags);
    put_u16(out, 52, value.ehsize);
    put_u16(out, 54, value.phentsize);
    put_u16(out, 56, value.phnum);
    put_u16(out, 58, value.shentsize);
    put_u16(out, 60, value.shnum);
    put_u16(out, 62, value.shstrndx);
}

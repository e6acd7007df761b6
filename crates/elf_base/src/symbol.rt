ghost use Rattle.std.specs.Prelude.{◌≡◌, ◌+◌, ◌<◌, ◌↔◌, Ok, length, IfOk, IfErr, IsErr};
ghost use Rattle.elf_base.specs.Field.{StandsAt, FieldsFit, bytes_of};
ghost use Rattle.elf_base.specs.Records.{sym_fields};

use crate::place::{
    Short, put_u8, put_u16, put_u32, put_u64, record_at, u8_at, u16_at, u32_at, u64_at,
};

/// The length of a symbol in bytes (ELF64, `Elf64_Sym`).
pub const SYM_BYTES: u64 = 24;

/// A symbol (ELF64, `Elf64_Sym`): a name for a place of a section.
#[derive(Clone, Copy)]
pub struct Sym {
    pub name: u32,
    pub info: u8,
    pub other: u8,
    pub shndx: u16,
    pub value: u64,
    pub size: u64,
}

/// The symbol that stands at byte `at`.
pub fn read_sym(bytes: &[u8], at: u64) -> Result<Sym, Short>
    ensures found { IfOk result (λ s. StandsAt bytes.now at (bytes_of (sym_fields s))) }
    ensures only { (s : Sym) → FieldsFit (sym_fields s)
        → StandsAt bytes.now at (bytes_of (sym_fields s)) → result ≡ Ok s }
    ensures short { IsErr result ↔ (length bytes.now < at + SYM_BYTES) }
    ensures end { IfErr result (λ e. e.at ≡ length bytes.now) }
{
    let part = record_at(bytes, at, SYM_BYTES)?;
    Ok(Sym {
        name: u32_at(part, 0),
        info: u8_at(part, 4),
        other: u8_at(part, 5),
        shndx: u16_at(part, 6),
        value: u64_at(part, 8),
        size: u64_at(part, 16),
    })
}

/// Writes the symbol over `out`, which has its length.
pub fn write_sym(value: &Sym, out: &mut [u8])
    requires { length out.old ≡ SYM_BYTES }
    ensures { out.new ≡ bytes_of (sym_fields value.now) }
{
    put_u32(out, 0, value.name);
    put_u8(out, 4, value.info);
    put_u8(out, 5, value.other);
    put_u16(out, 6, value.shndx);
    put_u64(out, 8, value.value);
    put_u64(out, 16, value.size);
}

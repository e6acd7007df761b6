ghost use Rattle.std.specs.Prelude.{◌≡◌, ◌+◌, ◌≤◌, ◌<◌, ◌↔◌, length, IfOk, IfErr, IsErr};
ghost use Rattle.elf_base.specs.Field.{Field, number, field_bytes};
ghost use Rattle.elf_base.specs.Place.{Taken, number_at, put_at};

use byteorder::{ByteOrder, LittleEndian};
use thiserror::Error;

/// A record does not all stand in the bytes, of which there are `at`.
#[derive(Clone, Copy, Debug, Error)]
#[error("the record passes the end of the bytes at {at}")]
pub struct Short {
    /// The number of bytes that are there.
    pub at: u64,
}

// The `len` bytes from `at` on.
pub(crate) fn record_at(bytes: &[u8], at: u64, len: u64) -> Result<&[u8], Short>
    ensures found { IfOk result (λ r. Taken bytes.now at len r.now) }
    ensures short { IsErr result ↔ (length bytes.now < at + len) }
    ensures end { IfErr result (λ e. e.at ≡ length bytes.now) }
{
    let available = bytes.len() as u64;
    if available < at || available - at < len {
        return Err(Short { at: available });
    }
    let start = at as usize;
    Ok(&bytes[start..start + len as usize])
}

/// The number that is the byte at a place of a record.
pub fn u8_at(part: &[u8], at: usize) -> u8
    requires { at + 1 ≤ length part.now }
    ensures { result ≡ number_at 1 at part.now }
{
    part[at]
}

/// The number whose two bytes stand at a place of a record.
#[tactic(auto, unfolding(crate::specs::Place::number_at))]
pub fn u16_at(part: &[u8], at: usize) -> u16
    requires { at + 2 ≤ length part.now }
    ensures { result ≡ number_at 2 at part.now }
{
    LittleEndian::read_u16(&part[at..])
}

/// The number whose four bytes stand at a place of a record.
#[tactic(auto, unfolding(crate::specs::Place::number_at))]
pub fn u32_at(part: &[u8], at: usize) -> u32
    requires { at + 4 ≤ length part.now }
    ensures { result ≡ number_at 4 at part.now }
{
    LittleEndian::read_u32(&part[at..])
}

/// The number whose eight bytes stand at a place of a record.
#[tactic(auto, unfolding(crate::specs::Place::number_at))]
pub fn u64_at(part: &[u8], at: usize) -> u64
    requires { at + 8 ≤ length part.now }
    ensures { result ≡ number_at 8 at part.now }
{
    LittleEndian::read_u64(&part[at..])
}

// Writes a number's byte at a place of a record.
pub(crate) fn put_u8(out: &mut [u8], at: usize, value: u8)
    requires { at + 1 ≤ length out.old }
    ensures { out.new ≡ put_at at (field_bytes (number 1 value)) out.old }
{
    out[at] = value;
}

// Writes the two bytes of a number at a place of a record.
pub(crate) fn put_u16(out: &mut [u8], at: usize, value: u16)
    requires { at + 2 ≤ length out.old }
    ensures { out.new ≡ put_at at (field_bytes (number 2 value)) out.old }
{
    LittleEndian::write_u16(&mut out[at..], value);
}

// Writes the four bytes of a number at a place of a record.
pub(crate) fn put_u32(out: &mut [u8], at: usize, value: u32)
    requires { at + 4 ≤ length out.old }
    ensures { out.new ≡ put_at at (field_bytes (number 4 value)) out.old }
{
    LittleEndian::write_u32(&mut out[at..], value);
}

// Writes the eight bytes of a number at a place of a record.
pub(crate) fn put_u64(out: &mut [u8], at: usize, value: u64)
    requires { at + 8 ≤ length out.old }
    ensures { out.new ≡ put_at at (field_bytes (number 8 value)) out.old }
{
    LittleEndian::write_u64(&mut out[at..], value);
}

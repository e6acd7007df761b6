// Tests of bytes, and numbers that stand among them.
ghost use Rattle.std.specs.Prelude.{◌≡◌, ◌+◌, ◌*◌, ◌/◌, ◌≤◌, length};
ghost use Rattle.elf_base.specs.Place.{number_at};
ghost use Rattle.elf_image.specs.Faults.{agrees, are_relative};

use byteorder::{ByteOrder, LittleEndian};

// Whether the bytes that are there are those that are wanted.
pub(crate) fn agrees(bytes: &[u8], wanted: &[u8]) -> bool
    ensures { result ≡ agrees bytes.now wanted.now }
{
    for i in 0..wanted.len() {
        if i >= bytes.len() {
            return true;
        }
        if bytes[i] != wanted[i] {
            return false;
        }
    }
    true
}

// The number of four bytes at a place.
#[tactic(auto, unfolding(elf_base::specs::Place::number_at))]
pub(crate) fn u32_at(bytes: &[u8], at: u64) -> u32
    requires { at + 4 ≤ length bytes.now }
    ensures { result ≡ number_at 4 at bytes.now }
{
    LittleEndian::read_u32(&bytes[at as usize..])
}

// The number of eight bytes at a place.
#[tactic(auto, unfolding(elf_base::specs::Place::number_at))]
pub(crate) fn u64_at(bytes: &[u8], at: u64) -> u64
    requires { at + 8 ≤ length bytes.now }
    ensures { result ≡ number_at 8 at bytes.now }
{
    LittleEndian::read_u64(&bytes[at as usize..])
}

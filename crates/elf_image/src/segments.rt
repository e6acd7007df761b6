// What is asked of each segment.
ghost use Rattle.std.specs.Prelude.{◌≡◌, ◌+◌, ◌==◌, ◌≤◌, length, nat_le};
ghost use Rattle.elf_image.specs.Faults.{is_read_only, is_code, is_writable, is_dynamic};
ghost use Rattle.elf_image.specs.Laws.Within.{Reaching};
ghost use Rattle.elf_image.specs.Places.{round_page};

use crate::heads::Heads;
use crate::layout::{RELOCS_PLACE, SYMBOLS_PLACE};
use crate::records::{code_with, dynamic_at, read_only_with, writable_with};
use crate::same::same_segment;
use elf_base::is_zero_between;

// The most bytes of memory that an image may take: 256 MiB.
const MEMORY_LIMIT: u64 = 268_435_456;

// Whether so many bytes from a place on end at a bound or before.
pub(crate) fn ends_by(place: u64, size: u64, bound: u64) -> bool
    ensures { result ≡ nat_le (place + size) bound }
{
    size <= bound && place <= bound - size
}

// Whether the next page after an end begins at a place.
fn begins_next_page(end: u64, place: u64) -> bool
    ensures { result ≡ (round_page end == place) }
{
    end <= place && place - end < 4096 && place % 4096 == 0
}

pub(crate) fn is_read_only(bytes: &[u8], heads: &Heads) -> bool
    requires { Reaching bytes.now heads.now }
    ensures { result ≡ is_read_only bytes.now heads.now }
{
    let part = &heads.read_only;
    same_segment(part, &read_only_with(part.filesz))
        && RELOCS_PLACE <= part.filesz
        && is_zero_between(bytes, SYMBOLS_PLACE, RELOCS_PLACE)
}

pub(crate) fn is_code(bytes: &[u8], heads: &Heads) -> bool
    requires { Reaching bytes.now heads.now }
    ensures { result ≡ is_code bytes.now heads.now }
{
    let part = &heads.code;
    same_segment(part, &code_with(part.offset, part.filesz))
        && begins_next_page(heads.read_only.filesz, part.offset)
        && part.filesz % 4 == 0
        && is_zero_between(bytes, heads.read_only.filesz, part.offset)
}

pub(crate) fn is_writable(bytes: &[u8], heads: &Heads) -> bool
    requires { Reaching bytes.now heads.now }
    ensures { result ≡ is_writable bytes.now heads.now }
{
    let part = &heads.writable;
    let code_end = heads.code.offset + heads.code.filesz;
    same_segment(part, &writable_with(part.offset, part.filesz, part.memsz))
        && begins_next_page(code_end, part.offset)
        && 176 <= part.filesz
        && part.filesz % 16 == 0
        && part.filesz <= part.memsz
        && part.memsz % 16 == 0
        && ends_by(part.offset, part.memsz, MEMORY_LIMIT)
        && is_zero_between(bytes, code_end, part.offset)
}

pub(crate) fn is_dynamic(heads: &Heads) -> bool
    ensures { result ≡ is_dynamic heads.now }
{
    let part = &heads.dynamic;
    same_segment(part, &dynamic_at(heads.writable.offset, part.filesz))
        && (part.filesz == 176 || part.filesz == 208)
        && part.filesz <= heads.writable.filesz
}

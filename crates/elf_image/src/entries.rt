// What is asked of the dynamic entries, and of what they say.
ghost use Rattle.std.specs.Prelude.{◌≡◌, ◌+◌, ◌*◌, ◌/◌, ◌==◌, ◌≤◌, ◌++◌, length, true};
ghost use Rattle.elf_base.specs.Conditions.{first_fault};
ghost use Rattle.elf_image.specs.Faults.{are_relative, same_entry, is_reloc_size, is_descriptor_size, asks, reloc_asks, table_asks};
ghost use Rattle.elf_image.specs.Faults.{mode_asks, size_asks, described_asks, last_asks, gap_asks};
ghost use Rattle.elf_image.specs.Heads.{reloc_bytes_at, descriptor_bytes_at};
ghost use Rattle.elf_image.specs.Records.{last_entries};
ghost use Rattle.elf_image.specs.Laws.Right.{rodata_at};
ghost use Rattle.elf_image.specs.Laws.Within.{Lying};

use crate::bytes::u64_at;
use crate::heads::{Heads, entry_at};
use crate::layout::RELOCS_PLACE;
use crate::records::{RELATIVE, described_entries, last_entries, mode_entries, table_entries};
use crate::refusal::ImageRefusal;
use crate::same::same_entry;
use elf_base::{Dyn, is_zero_between};
use mt_base::round16;

// Whether so many relocations are relative.
fn are_relative(bytes: &[u8], count: u64) -> bool
    requires { 0x140 + 24 * count ≤ length bytes.now }
    ensures { result ≡ are_relative count 0x140 bytes.now }
{
    for i in 0..count {
        if u64_at(bytes, RELOCS_PLACE + 24 * i + 8) != RELATIVE {
            return false;
        }
    }
    true
}

// The first fault of the entries from a number on, which are to be these.
fn entries_fault(bytes: &[u8], heads: &Heads, first: u32, wanted: &[Dyn]) -> Option<ImageRefusal>
    requires few { first + length wanted.now ≤ 13 }
    requires there { heads.now.dynamic.offset + 16 * (first + length wanted.now) ≤ length bytes.now }
    ensures { result ≡ first_fault (asks bytes.now heads.now first wanted.now) }
{
    let mut i = first;
    for entry in wanted {
        if !same_entry(&entry_at(bytes, heads, i), entry) {
            return Some(ImageRefusal::BadDynamic { index: i });
        }
        i += 1;
    }
    None
}

fn is_reloc_size(heads: &Heads, relocs: u64) -> bool
    requires { heads.now.read_only.filesz ≤ 268435456 }
    ensures { result ≡ is_reloc_size heads.now relocs }
{
    if relocs > heads.read_only.filesz {
        return false;
    }
    let end = RELOCS_PLACE + relocs;
    let rodata = if heads.dynamic.filesz == 208 {
        end
    } else {
        round16(end)
    };
    relocs % 24 == 0 && rodata <= heads.read_only.filesz
}

fn is_descriptor_size(heads: &Heads, relocs: u64, descriptors: u64) -> bool
    requires small { heads.now.read_only.filesz ≤ 268435456 }
    requires relocs { 0x140 + relocs ≤ heads.now.read_only.filesz }
    ensures { result ≡ is_descriptor_size heads.now relocs descriptors }
{
    if descriptors > heads.read_only.filesz {
        return false;
    }
    descriptors >= 1 && round16(RELOCS_PLACE + relocs + descriptors) <= heads.read_only.filesz
}

// How many bytes the relocations and the descriptors have.
#[derive(Clone, Copy)]
pub(crate) struct Sizes {
    pub(crate) relocs: u64,
    pub(crate) descriptors: u64,
}

pub(crate) fn sizes_of(bytes: &[u8], heads: &Heads) -> Sizes
    requires within { heads.now.dynamic.offset + heads.now.dynamic.filesz ≤ length bytes.now }
    requires room { 176 ≤ heads.now.dynamic.filesz }
    ensures relocs { result.relocs ≡ reloc_bytes_at bytes.now heads.now }
    ensures descriptors { result.descriptors ≡ descriptor_bytes_at bytes.now heads.now }
{
    let relocs = entry_at(bytes, heads, 5).value;
    let descriptors = if heads.dynamic.filesz == 208 {
        entry_at(bytes, heads, 11).value
    } else {
        0
    };
    Sizes {
        relocs,
        descriptors,
    }
}

// The first fault of the entries up to RELASZ, and of the relocations.
pub(crate) fn table_fault(bytes: &[u8], heads: &Heads) -> Option<ImageRefusal>
    requires { Lying bytes.now heads.now }
    ensures { result ≡ first_fault (table_asks bytes.now heads.now) }
{
    let relocs = sizes_of(bytes, heads).relocs;
    match entries_fault(bytes, heads, 0, &table_entries(relocs)) {
        Some(fault) => Some(fault),
        None => reloc_fault(bytes, heads),
    }
}

// The first fault of the size of the relocations, and of them.
fn reloc_fault(bytes: &[u8], heads: &Heads) -> Option<ImageRefusal>
    requires { Lying bytes.now heads.now }
    ensures { result ≡ first_fault (reloc_asks bytes.now heads.now) }
{
    let relocs = sizes_of(bytes, heads).relocs;
    if !is_reloc_size(heads, relocs) {
        return Some(ImageRefusal::BadDynamic { index: 5 });
    }
    if !are_relative(bytes, relocs / 24) {
        return Some(ImageRefusal::BadDynamic { index: 4 });
    }
    None
}

// The first fault of the entries up to MEMTAG_STACK.
pub(crate) fn mode_fault(bytes: &[u8], heads: &Heads) -> Option<ImageRefusal>
    requires { Lying bytes.now heads.now }
    ensures { result ≡ first_fault (mode_asks bytes.now heads.now) }
{
    entries_fault(bytes, heads, 6, &mode_entries())
}

// The first fault of the last entries: those of the descriptors, where there are 13 entries, and NULL.
pub(crate) fn last_fault(bytes: &[u8], heads: &Heads) -> Option<ImageRefusal>
    requires lying { Lying bytes.now heads.now }
    requires relocs { 0x140 + reloc_bytes_at bytes.now heads.now ≤ heads.now.read_only.filesz }
    ensures { result ≡ first_fault (last_asks bytes.now heads.now) }
{
    if heads.dynamic.filesz == 208 {
        described_fault(bytes, heads)
    } else {
        entries_fault(bytes, heads, 10, &last_entries())
    }
}

fn described_fault(bytes: &[u8], heads: &Heads) -> Option<ImageRefusal>
    requires lying { Lying bytes.now heads.now }
    requires many { heads.now.dynamic.filesz ≡ 208 }
    requires relocs { 0x140 + reloc_bytes_at bytes.now heads.now ≤ heads.now.read_only.filesz }
    ensures { result ≡ first_fault (described_asks bytes.now heads.now) }
{
    let sizes = sizes_of(bytes, heads);
    let wanted = described_entries(RELOCS_PLACE + sizes.relocs, sizes.descriptors);
    match entries_fault(bytes, heads, 10, &wanted) {
        Some(fault) => Some(fault),
        None => size_fault(bytes, heads),
    }
}

// The first fault of the size of the descriptors, and of NULL behind it.
fn size_fault(bytes: &[u8], heads: &Heads) -> Option<ImageRefusal>
    requires lying { Lying bytes.now heads.now }
    requires many { heads.now.dynamic.filesz ≡ 208 }
    requires relocs { 0x140 + reloc_bytes_at bytes.now heads.now ≤ heads.now.read_only.filesz }
    ensures { result ≡ first_fault (size_asks bytes.now heads.now ++ asks bytes.now heads.now 12 last_entries) }
{
    let sizes = sizes_of(bytes, heads);
    if is_descriptor_size(heads, sizes.relocs, sizes.descriptors) {
        entries_fault(bytes, heads, 12, &last_entries())
    } else {
        Some(ImageRefusal::BadDynamic { index: 11 })
    }
}

// The fault of the gap before the read-only data.
pub(crate) fn gap_fault(bytes: &[u8], heads: &Heads) -> Option<ImageRefusal>
    requires lying { Lying bytes.now heads.now }
    requires rodata { rodata_at bytes.now heads.now ≤ heads.now.read_only.filesz }
    ensures { result ≡ first_fault (gap_asks bytes.now heads.now) }
{
    let sizes = sizes_of(bytes, heads);
    let start = RELOCS_PLACE + sizes.relocs + sizes.descriptors;
    if is_zero_between(bytes, start, round16(start)) {
        None
    } else {
        Some(ImageRefusal::BadSegment { index: 0 })
    }
}

ghost use Rattle.std.specs.Prelude.{◌≡◌, ◌≤◌, ◌<◌, ◌^◌, List, length, IfOk, IfErr};
ghost use Rattle.mt_base.specs.Granules.{round16};
ghost use Rattle.elf_image.specs.Places.{round_page};
ghost use Rattle.linker.specs.Got.{got};
ghost use Rattle.linker.specs.Relocations.{data_reloc_count};
ghost use Rattle.linker.specs.Totals.{AreLengths, AreSmall, totals_of, entry_count, rodata_by, code_by, filled_by, end_by, memory_by};
ghost use Rattle.linker.specs.Known.{objects_of};

use crate::lengths::{Lengths, end_of};
use elf_obj::ObjectParts;

/// The sizes of the parts of an image.
#[derive(Clone, Copy)]
pub(crate) struct Totals {
    /// How many places hold addresses.
    pub relocs: u128,
    /// The bytes that are only read.
    pub rodata: u128,
    /// The instructions.
    pub words: u128,
    /// The filled bytes, with the global offset table, in whole granules.
    pub filled: u128,
    /// The zero bytes, in whole granules.
    pub zeros: u128,
}

// The least multiple of 16 that is at least n.
fn round16(n: u128) -> u128
    requires { n < 2 ^ 120 }
    ensures { result ≡ round16 n }
{
    (n + 15) / 16 * 16
}

// The least multiple of a page, 4,096 bytes, that is at least n.
fn round_page(n: u128) -> u128
    requires { n < 2 ^ 120 }
    ensures { result ≡ round_page n }
{
    (n + 4095) / 4096 * 4096
}

// How many places of their filled data hold addresses.
fn data_reloc_count(objects: &[ObjectParts]) -> u128
    requires { length objects.now ≤ 16 }
    ensures count { result ≡ data_reloc_count (objects_of objects.now) }
    ensures small { result < 2 ^ 80 }
{
    let mut count: u128 = 0;
    for parts in objects {
        count += parts.init_relocs.len() as u128;
    }
    count
}

/// The sizes of the parts of the image of objects, whose global offset table has so many words.
#[tactic(auto, unfolding(crate::specs::Totals::totals_of))]
pub(crate) fn totals_of(objects: &[ObjectParts], lengths: &Lengths, words: usize) -> Totals
    requires few { length objects.now ≤ 16 }
    requires lengths { AreLengths (objects_of objects.now) lengths.now }
    requires words { words ≡ length (got (objects_of objects.now)) }
    ensures totals { result ≡ totals_of (objects_of objects.now) }
    ensures small { AreSmall result }
{
    let table = 8 * words as u128;
    Totals {
        relocs: words as u128 + data_reloc_count(objects),
        rodata: end_of(16, 0, &lengths.rodata),
        words: end_of(4, 2, &lengths.words),
        filled: round16(end_of(16, table, &lengths.init)),
        zeros: round16(end_of(16, 0, &lengths.zero)),
    }
}

// How many dynamic all_numbered an image with so many descriptor bytes has.
fn entry_count(count: u128) -> u128
    ensures { result ≡ entry_count count }
{
    if count == 0 { 11 } else { 13 }
}

impl Totals {
    /// Where the data begins that is only read, in an image with so many descriptor bytes.
    #[tactic(auto, unfolding(crate::specs::Totals::rodata_by))]
    pub(crate) fn rodata_place(&self, count: u128) -> u128
        requires small { AreSmall self.now }
        requires few { count < 2 ^ 100 }
        ensures place { result ≡ rodata_by self.now count }
        ensures small { result < 2 ^ 106 }
    {
        round16(0x140 + 24 * self.relocs + count)
    }

    /// Where the instructions begin.
    #[tactic(auto, unfolding(crate::specs::Totals::code_by))]
    pub(crate) fn code_place(&self, count: u128) -> u128
        requires small { AreSmall self.now }
        requires few { count < 2 ^ 100 }
        ensures place { result ≡ code_by self.now count }
        ensures small { result < 2 ^ 107 }
    {
        round_page(self.rodata_place(count) + self.rodata)
    }

    /// Where the filled data begins.
    #[tactic(auto, unfolding(crate::specs::Totals::filled_by))]
    pub(crate) fn filled_place(&self, count: u128) -> u128
        requires small { AreSmall self.now }
        requires few { count < 2 ^ 100 }
        ensures place { result ≡ filled_by self.now count }
        ensures small { result < 2 ^ 108 }
    {
        let code_end = self.code_place(count) + 4 * self.words;
        round16(round_page(code_end) + 16 * entry_count(count))
    }

    /// Where the zero bytes begin.
    #[tactic(auto, unfolding(crate::specs::Totals::end_by))]
    pub(crate) fn file_end(&self, count: u128) -> u128
        requires small { AreSmall self.now }
        requires few { count < 2 ^ 100 }
        ensures place { result ≡ end_by self.now count }
        ensures small { result < 2 ^ 109 }
    {
        self.filled_place(count) + self.filled
    }

    /// Where they end, and the memory of the image.
    #[tactic(auto, unfolding(crate::specs::Totals::memory_by))]
    pub(crate) fn memory_end(&self, count: u128) -> u128
        requires small { AreSmall self.now }
        requires few { count < 2 ^ 100 }
        ensures { result ≡ memory_by self.now count }
    {
        self.file_end(count) + self.zeros
    }
}

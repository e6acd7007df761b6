ghost use Rattle.std.specs.Prelude.{◌≡◌, ◌<◌, ◌≤◌, ◌^◌, List, length, map, slice_index};
ghost use Rattle.mt_base.specs.Wrapping.{wrap};
ghost use Rattle.elf_obj.specs.Object.{Object};
ghost use Rattle.linker.specs.Names.{NumberedSymbol};
ghost use Rattle.linker.specs.Sections.{starts, init_sizes};
ghost use Rattle.linker.specs.Got.{got, got_number, got_bytes};
ghost use Rattle.linker.specs.Addresses.{section_address};
ghost use Rattle.linker.specs.Known.{objects_of, numbers_of, AreStarts, AreNear, number_address};

use crate::bases::Bases;
use crate::names::Numbers;
use crate::table::Table;
use elf_obj::{Home, ObjectParts};

/// The places within the parts of an image at which the sections of the objects begin; those of the instructions are counted in words.
#[derive(Drop)]
pub(crate) struct Starts {
    pub text: Vec<u128>,
    pub rodata: Vec<u128>,
    pub init: Vec<u128>,
    pub zero: Vec<u128>,
}

/// Where all sections of the objects lie in the image.
#[derive(Drop)]
pub(crate) struct Layout {
    pub bases: Bases,
    pub starts: Starts,
}

// The start of the object of a number.
fn start_at(starts: &[u128], object: usize) -> u64
    requires { slice_index starts.now object < 2 ^ 32 }
    ensures { result ≡ slice_index starts.now object }
{
    match starts.get(object) {
        Some(start) => *start as u64,
        None => 0,
    }
}

impl Layout {
    /// Where the filled bytes of the object of a number begin in the filled data.
    pub(crate) fn init_start(&self, object: usize) -> u64
        requires { AreNear self.now }
        ensures { (objects : List Object) → AreStarts objects self.now.starts
            → result ≡ slice_index (starts 16 (got_bytes objects) (init_sizes objects)) object }
    {
        start_at(&self.starts.init, object)
    }

    /// Where the section lies that the object of a number has of a kind.
    pub(crate) fn section_address(&self, object: usize, home: Home) -> u64
        requires { AreNear self.now }
        ensures address { (objects : List Object) → AreStarts objects self.now.starts
            → result ≡ section_address objects self.now.bases object home }
        ensures small { result < 2 ^ 40 }
    {
        match home {
            Home::Undef => 0,
            Home::Text => self.bases.code + 4 * start_at(&self.starts.text, object),
            Home::Rodata => self.bases.rodata + start_at(&self.starts.rodata, object),
            Home::Init => self.bases.filled + start_at(&self.starts.init, object),
            Home::Zero => self.bases.zeros + start_at(&self.starts.zero, object),
        }
    }
}

/// The address of the symbol of some numbers in 64 bits, and 0 where there is none.
#[tactic(auto, unfolding(crate::specs::Known::number_address))]
pub(crate) fn symbol_address(layout: &Layout, objects: &[ObjectParts], numbers: Numbers) -> u64
    requires near { AreNear layout.now }
    requires starts { AreStarts (objects_of objects.now) layout.now.starts }
    ensures { result ≡ wrap 64 (number_address (objects_of objects.now) layout.now.bases numbers) }
{
    let Some(parts) = objects.get(numbers.object) else {
        return 0;
    };
    let Some(symbol) = parts.symbols.get(numbers.number) else {
        return 0;
    };
    let start = layout.section_address(numbers.object, symbol.home);
    start.wrapping_add(symbol.value)
}

/// The number of a symbol's word in the global offset table.
pub(crate) fn word_number(table: &Table, numbers: Numbers) -> usize
    ensures number { (objects : List Object) (e : NumberedSymbol) → table.now.keys ≡ map numbers_of (got objects) → numbers_of e ≡ numbers
        → result ≡ got_number objects e }
    ensures small { result ≤ length table.now.keys }
{
    match table.get_index_of(&numbers) {
        Some(index) => index,
        None => table.len(),
    }
}

ghost use Rattle.std.specs.Prelude.{◌≡◌, ◌<◌, Some, [], length, slice_get, IfOk, IfErr};
ghost use Rattle.elf_base.specs.Laying.{pad, put_all};
ghost use Rattle.elf_obj.specs.Object.{Object};
ghost use Rattle.linker.specs.declared.refusal.LinkRefusal.TheVariants.{NoMemory};
ghost use Rattle.linker.specs.Names.{target};
ghost use Rattle.linker.specs.Sections.{each_from};
ghost use Rattle.linker.specs.Data.{place_content, target_size, object_bytes, filled_pieces, filled_size};
ghost use Rattle.linker.specs.Known.{objects_of, number_size};
ghost use Rattle.linker.specs.Ready.{IsReady, content_of, with_bytes};

use crate::names::Numbers;
use crate::refusal::LinkRefusal;
use crate::relocate::Link;
use crate::table::target;
use elf_base::{pad_to, put_bytes};
use elf_obj::{ObjectParts, Reloc};
use std::alloc::Global;

/// The size of the symbol of some numbers, and 0 where there is none.
#[tactic(auto, unfolding(crate::specs::Known::number_size))]
fn symbol_size(objects: &[ObjectParts], numbers: Numbers) -> u64
    ensures { result ≡ number_size (objects_of objects.now) numbers }
{
    let Some(parts) = objects.get(numbers.object) else {
        return 0;
    };
    let Some(symbol) = parts.symbols.get(numbers.number) else {
        return 0;
    };
    symbol.size
}

// What the place of a relocation holds in the file, by the size of its symbol.
fn place_content(size: u64, reloc: &Reloc) -> u64
    ensures { result ≡ place_content size reloc.now.addend }
{
    let bits = reloc.addend.cast_unsigned();
    if reloc.addend >= 0 && bits < size {
        0
    } else {
        0u64.wrapping_sub(bits)
    }
}

// Eight bytes of a number from a place on, as far as there are bytes.
fn put_number(out: &mut [u8], place: u64, value: u64)
    ensures { out.new ≡ each_from 0 (with_bytes place value 8) out.old }
{
    if place >= out.len() as u64 {
        return;
    }
    let start = place as usize;
    let bytes = value.to_le_bytes();
    for index in 0..8 {
        if index < out.len() - start {
            out[start + index] = bytes[index];
        }
    }
}

impl<'a> Link<'a> {
    // What the place of a relocation of the object of a number holds in the file.
    fn content(&self, object: usize, reloc: &Reloc) -> u64
        requires ready { IsReady self.now }
        requires within { object < length self.now.objects.now }
        ensures { (o : Object) → slice_get (objects_of self.now.objects.now) object ≡ Some o
            → result ≡ content_of (objects_of self.now.objects.now) object o reloc.now }
    {
        let symbols = self.objects[object].symbols.as_slice();
        match target(&self.names, object, symbols, reloc.symbol) {
            None => place_content(0, reloc),
            Some(numbers) => place_content(symbol_size(self.objects, numbers), reloc),
        }
    }

    // Fills all places of the object of a number that hold addresses. The first relocation of a byte counts, so it comes last.
    fn fill_places(&self, object: usize, relocs: &[Reloc], out: &mut [u8])
        requires ready { IsReady self.now }
        requires within { object < length self.now.objects.now }
        ensures { (o : Object) → slice_get (objects_of self.now.objects.now) object ≡ Some o → out.old ≡ o.init_bytes
            → relocs.now ≡ o.init_relocs → out.new ≡ object_bytes (objects_of self.now.objects.now) object o }
    {
        let mut left = relocs.len();
        while left > 0 {
            left -= 1;
            let reloc = &relocs[left];
            put_number(out, reloc.offset, self.content(object, reloc));
        }
    }

    // The filled bytes of the object of a number.
    fn object_bytes(&self, alloc: Global, object: usize) -> Result<Vec<u8>, LinkRefusal>
        requires ready { IsReady self.now }
        requires within { object < length self.now.objects.now }
        ensures bytes { IfOk result (λ v. (o : Object) → slice_get (objects_of self.now.objects.now) object ≡ Some o
            → v.items ≡ object_bytes (objects_of self.now.objects.now) object o) }
        ensures memory { IfErr result (λ r. r ≡ NoMemory) }
    {
        let parts = &self.objects[object];
        let mut out = Vec::from_slice(alloc, parts.init_bytes.as_slice())?;
        self.fill_places(object, &parts.init_relocs, &mut out);
        Ok(out)
    }

    /// The filled data of the image, of which the size is given.
    pub(crate) fn filled(&self, alloc: Global, size: u64) -> Result<Vec<u8>, LinkRefusal>
        requires ready { IsReady self.now }
        requires size { size ≡ filled_size (objects_of self.now.objects.now) }
        ensures bytes { IfOk result (λ v. v.items
            ≡ pad (filled_size (objects_of self.now.objects.now)) (put_all (filled_pieces (objects_of self.now.objects.now)) [])) }
        ensures memory { IfErr result (λ r. r ≡ NoMemory) }
    {
        let mut out = Vec::new(alloc);
        for object in 0..self.objects.len() {
            let bytes = self.object_bytes(alloc, object)?;
            let place = self.layout.init_start(object);
            let slice = bytes.as_slice();
            put_bytes(&mut out, place, slice)?;
        }
        pad_to(&mut out, size)?;
        Ok(out)
    }
}

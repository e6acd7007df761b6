ghost use Rattle.std.specs.Prelude.{◌≡◌, ◌≤◌, ◌<◌, ◌+◌, ◌++◌, ◌^◌, Some, map, length, slice_get, slice_index_or, OnOk, IfOk, IfErr};
ghost use Rattle.std.specs.List.{AllByRecursion};
ghost use Rattle.elf_obj.specs.Object.{Object};
ghost use Rattle.elf_obj.specs.ObjectFile.{IsValid};
ghost use Rattle.linker.specs.declared.refusal.LinkRefusal.TheVariants.{NoMemory};
ghost use Rattle.linker.specs.Sections.{each_from};
ghost use Rattle.linker.specs.Got.{got};
ghost use Rattle.linker.specs.Relocations.{relative, got_reloc, data_reloc, relocations};
ghost use Rattle.linker.specs.Known.{objects_of};
ghost use Rattle.linker.specs.Ready.{IsReady, blank_symbol};

use crate::layout::symbol_address;
use crate::refusal::LinkRefusal;
use crate::relocate::Link;
use elf_image::RelativeReloc;
use elf_obj::{Home, Reloc};
use std::alloc::Global;

// A place and the address that is put there.
fn relative(place: u64, address: u64) -> RelativeReloc
    ensures { result ≡ relative place address }
{
    RelativeReloc {
        place,
        addend: address.cast_signed(),
    }
}

impl<'a> Link<'a> {
    // The place of the word of a number.
    fn word_reloc(&self, index: usize) -> RelativeReloc
        requires ready { IsReady self.now }
        requires within { index < length self.now.table.keys }
        ensures { result ≡ got_reloc (objects_of self.now.objects.now) self.now.layout.bases index
            (slice_index_or (got (objects_of self.now.objects.now)) index blank_symbol) }
    {
        let place = self.layout.bases.filled + 8 * index as u64;
        match self.table.get_index(index) {
            None => relative(place, 0),
            Some(numbers) => relative(place, symbol_address(&self.layout, self.objects, *numbers)),
        }
    }

    // The places of the words of the table.
    fn push_words(&self, out: &mut Vec<RelativeReloc>) -> Result<(), LinkRefusal>
        requires { IsReady self.now }
        ensures words { OnOk result (out.new.items ≡ out.old.items
            ++ each_from 0 (got_reloc (objects_of self.now.objects.now) self.now.layout.bases) (got (objects_of self.now.objects.now))) }
        ensures memory { IfErr result (λ r. r ≡ NoMemory) }
    {
        for index in 0..self.table.len() {
            out.push(self.word_reloc(index))?;
        }
        Ok(())
    }

    // The place of a relocation of the filled data of the object of a number.
    fn data_reloc(&self, object: usize, reloc: &Reloc) -> RelativeReloc
        requires ready { IsReady self.now }
        requires within { object < length self.now.objects.now }
        requires near { reloc.now.offset < 2 ^ 63 }
        ensures { (o : Object) → slice_get (objects_of self.now.objects.now) object ≡ Some o
            → result ≡ data_reloc (objects_of self.now.objects.now) self.now.layout.bases object o reloc.now }
    {
        let address = self.address(object, reloc.symbol);
        let place = self.layout.section_address(object, Home::Init) + reloc.offset;
        relative(place, address.wrapping_add(reloc.addend.cast_unsigned()))
    }

    // The places of the filled data of the object of a number.
    fn push_places(
        &self,
        out: &mut Vec<RelativeReloc>,
        object: usize,
        relocs: &[Reloc],
    ) -> Result<(), LinkRefusal>
        requires ready { IsReady self.now }
        requires within { object < length self.now.objects.now }
        requires near { AllByRecursion (λ r. r.offset < 2 ^ 63) relocs.now }
        ensures places { OnOk result ((o : Object) → slice_get (objects_of self.now.objects.now) object ≡ Some o
            → out.new.items ≡ out.old.items
            ++ map (data_reloc (objects_of self.now.objects.now) self.now.layout.bases object o) relocs.now) }
        ensures memory { IfErr result (λ r. r ≡ NoMemory) }
    {
        for reloc in relocs {
            out.push(self.data_reloc(object, reloc))?;
        }
        Ok(())
    }

    /// The places of the image that hold addresses.
    pub(crate) fn relocations(&self, alloc: Global) -> Result<Vec<RelativeReloc>, LinkRefusal>
        requires ready { IsReady self.now }
        requires valid { AllByRecursion IsValid (objects_of self.now.objects.now) }
        ensures places { IfOk result (λ v. v.items ≡ relocations (objects_of self.now.objects.now) self.now.layout.bases) }
        ensures memory { IfErr result (λ r. r ≡ NoMemory) }
    {
        let mut out = Vec::new(alloc);
        self.push_words(&mut out)?;
        for object in 0..self.objects.len() {
            self.push_places(&mut out, object, &self.objects[object].init_relocs)?;
        }
        Ok(out)
    }
}

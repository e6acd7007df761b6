ghost use Rattle.std.specs.Prelude.{◌≡◌, ◌<◌, ◌≤◌, ◌+◌, ◌*◌, ◌^◌, Some, length, IfOk, IfErr, slice_get};
ghost use Rattle.mt_base.specs.Wrapping.{wrap};
ghost use Rattle.elf_obj.specs.Object.{Object};
ghost use Rattle.linker.specs.declared.refusal.LinkRefusal.TheVariants.{NoMemory};
ghost use Rattle.linker.specs.Names.{target};
ghost use Rattle.linker.specs.Addresses.{address, got_address, plus};
ghost use Rattle.linker.specs.Code.{site, object_words};
ghost use Rattle.linker.specs.Known.{objects_of};
ghost use Rattle.linker.specs.Ready.{IsReady, Relocates};

use crate::fields::{Site, relocated};
use crate::layout::{Layout, symbol_address, word_number};
use crate::names::Names;
use crate::refusal::LinkRefusal;
use crate::table::{Table, target};
use elf_obj::{Home, ObjectParts, Reloc};
use std::alloc::Global;

/// Objects with all that is known of their image before it is made.
#[derive(Drop)]
pub(crate) struct Link<'a> {
    pub objects: &'a [ObjectParts],
    pub names: Names<'a>,
    pub table: Table,
    pub layout: Layout,
}

impl<'a> Link<'a> {
    /// The address of the symbol that the symbol of a number stands for, in the object of a number; 0 where it is none.
    pub(crate) fn address(&self, object: usize, number: u32) -> u64
        requires ready { IsReady self.now }
        requires within { object < length self.now.objects.now }
        ensures { (o : Object) → slice_get (objects_of self.now.objects.now) object ≡ Some o
            → result ≡ wrap 64 (address (objects_of self.now.objects.now) self.now.layout.bases
            (target (objects_of self.now.objects.now) object o.symbols number)) }
    {
        let symbols = self.objects[object].symbols.as_slice();
        match target(&self.names, object, symbols, number) {
            None => 0,
            Some(numbers) => symbol_address(&self.layout, self.objects, numbers),
        }
    }

    /// The address of its word in the global offset table.
    pub(crate) fn word_address(&self, object: usize, number: u32) -> u64
        requires ready { IsReady self.now }
        requires within { object < length self.now.objects.now }
        ensures { (o : Object) → slice_get (objects_of self.now.objects.now) object ≡ Some o
            → result ≡ got_address (objects_of self.now.objects.now) self.now.layout.bases
            (target (objects_of self.now.objects.now) object o.symbols number) }
    {
        let symbols = self.objects[object].symbols.as_slice();
        match target(&self.names, object, symbols, number) {
            None => 0,
            Some(numbers) => {
                let words = word_number(&self.table, numbers) as u64;
                self.layout.bases.filled + 8 * words
            }
        }
    }

    // A relocation of the object of a number, at its place in the image.
    fn site(&self, object: usize, reloc: &Reloc) -> Site
        requires ready { IsReady self.now }
        requires within { object < length self.now.objects.now }
        requires near { reloc.now.offset < 2 ^ 63 }
        ensures { (o : Object) → slice_get (objects_of self.now.objects.now) object ≡ Some o
            → result ≡ site (objects_of self.now.objects.now) self.now.layout.bases object o reloc.now }
    {
        let address = self.address(object, reloc.symbol);
        Site {
            kind: reloc.kind,
            place: self.layout.section_address(object, Home::Text) + reloc.offset,
            sum: address.wrapping_add(reloc.addend.cast_unsigned()),
            got: self.word_address(object, reloc.symbol),
        }
    }

    // Relocates the field of one instruction of the object of a number, whose words these were. What lies outside them is left out.
    fn relocate(&self, object: usize, words: &[u32], reloc: &Reloc, out: &mut [u32])
        requires ready { IsReady self.now }
        requires within { object < length self.now.objects.now }
        requires same { length out.old ≡ length words.now }
        requires small { length words.now < 2 ^ 61 }
        ensures { (o : Object) → slice_get (objects_of self.now.objects.now) object ≡ Some o
            → Relocates (objects_of self.now.objects.now) self.now.layout.bases object o reloc.now words.now out.old out.new }
    {
        if reloc.offset % 4 != 0 || reloc.offset / 4 >= words.len() as u64 {
            return;
        }
        let index = (reloc.offset / 4) as usize;
        let site = self.site(object, reloc);
        out[index] = relocated(&site, words[index]);
    }

    // Relocates the fields of all instructions of the object of a number. The first relocation of an instruction counts, so it comes last.
    fn relocate_all(&self, object: usize, words: &[u32], relocs: &[Reloc], out: &mut [u32])
        requires ready { IsReady self.now }
        requires within { object < length self.now.objects.now }
        requires same { out.old ≡ words.now }
        requires small { length words.now < 2 ^ 61 }
        ensures { (o : Object) → slice_get (objects_of self.now.objects.now) object ≡ Some o → words.now ≡ o.words
            → relocs.now ≡ o.text_relocs
            → out.new ≡ object_words (objects_of self.now.objects.now) self.now.layout.bases object o }
    {
        let mut left = relocs.len();
        while left > 0 {
            left -= 1;
            self.relocate(object, words, &relocs[left], out);
        }
    }

    /// The words of the object of a number, with their fields relocated.
    pub(crate) fn object_words(&self, alloc: Global, object: usize) -> Result<Vec<u32>, LinkRefusal>
        requires ready { IsReady self.now }
        requires within { object < length self.now.objects.now }
        ensures words { IfOk result (λ v. (o : Object) → slice_get (objects_of self.now.objects.now) object ≡ Some o
            → v.items ≡ object_words (objects_of self.now.objects.now) self.now.layout.bases object o) }
        ensures memory { IfErr result (λ r. r ≡ NoMemory) }
    {
        let parts = &self.objects[object];
        let words = parts.words.as_slice();
        let mut out = Vec::from_slice(alloc, words)?;
        self.relocate_all(object, words, &parts.text_relocs, &mut out);
        Ok(out)
    }
}

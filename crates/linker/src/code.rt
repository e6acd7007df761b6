ghost use Rattle.std.specs.Prelude.{◌≡◌, [], length, IfOk, IfErr, OnOk};
ghost use Rattle.elf_base.specs.Layout.{piece};
ghost use Rattle.elf_base.specs.Laying.{pad, put, put_all};
ghost use Rattle.linker.specs.declared.refusal.LinkRefusal.TheVariants.{NoMemory};
ghost use Rattle.linker.specs.Sections.{round_up};
ghost use Rattle.linker.specs.Code.{call_main, code_pieces};
ghost use Rattle.linker.specs.Known.{objects_of};
ghost use Rattle.linker.specs.Ready.{IsReady};

use crate::fields::{Site, relocated};
use crate::layout::symbol_address;
use crate::refusal::LinkRefusal;
use crate::relocate::Link;
use std::alloc::Global;

// Zeros up to a place, counted in words.
#[tactic(auto, unfolding(elf_base::specs::Laying::pad))]
fn pad_words(out: &mut Vec<u32>, place: u64) -> Result<(), LinkRefusal>
    ensures padded { OnOk result (out.new.items ≡ pad place out.old.items) }
    ensures memory { IfErr result (λ r. r ≡ NoMemory) }
{
    let gap = place.saturating_sub(out.len() as u64);
    for _ in 0..gap {
        out.push(0)?;
    }
    Ok(())
}

// Words at a place, with zeros before.
#[tactic(auto, unfolding(elf_base::specs::Laying::put))]
fn put_words(out: &mut Vec<u32>, place: u64, words: &[u32]) -> Result<(), LinkRefusal>
    ensures put { OnOk result (out.new.items ≡ put (piece place words.now) out.old.items) }
    ensures memory { IfErr result (λ r. r ≡ NoMemory) }
{
    pad_words(out, place)?;
    out.extend_from_slice(words)?;
    Ok(())
}

// The next multiple of 16 bytes behind words, counted in words.
fn next_place(out: &[u32]) -> u64
    ensures { result ≡ round_up 4 (length out.now) }
{
    (out.len() as u64 + 3) / 4 * 4
}

// `svc #3`, which ends the run.
const END_RUN: u32 = 0xd400_0061;

impl<'a> Link<'a> {
    // `bl main`, at the start of the code.
    fn call_main(&self) -> u32
        requires { IsReady self.now }
        ensures { result ≡ call_main (objects_of self.now.objects.now) self.now.layout.bases }
    {
        let sum = match self.names.get(&b"main".as_slice()) {
            None => 0,
            Some(numbers) => symbol_address(&self.layout, self.objects, *numbers),
        };
        let site = Site {
            kind: 283,
            place: self.layout.bases.code,
            sum,
            got: 0,
        };
        relocated(&site, 0x9400_0000)
    }

    /// The code of the image.
    pub(crate) fn code(&self, alloc: Global) -> Result<Vec<u32>, LinkRefusal>
        requires { IsReady self.now }
        ensures words { IfOk result (λ v. v.items ≡ put_all (code_pieces (objects_of self.now.objects.now) self.now.layout.bases) []) }
        ensures memory { IfErr result (λ r. r ≡ NoMemory) }
    {
        let mut out = Vec::new(alloc);
        out.push(self.call_main())?;
        out.push(END_RUN)?;
        for object in 0..self.objects.len() {
            let words = self.object_words(alloc, object)?;
            let so_far = out.as_slice();
            let place = next_place(so_far);
            let slice = words.as_slice();
            put_words(&mut out, place, slice)?;
        }
        Ok(out)
    }
}

ghost use Rattle.std.specs.Prelude.{◌≡◌, IfOk, IfErr};
ghost use Rattle.std.specs.List.{AllByRecursion};
ghost use Rattle.elf_obj.specs.ObjectFile.{IsValid};
ghost use Rattle.elf_image.specs.Image.{image_of};
ghost use Rattle.linker.specs.declared.refusal.LinkRefusal.TheVariants.{NoMemory};
ghost use Rattle.linker.specs.Linked.{Linked};
ghost use Rattle.linker.specs.Known.{objects_of};
ghost use Rattle.linker.specs.Ready.{IsReady};
ghost use Rattle.linker.specs.Planned.{bases_by, IsAccepted};

use crate::descriptors::descriptors;
use crate::plan::Plan;
use crate::refusal::LinkRefusal;
use crate::relocate::Link;
use crate::rodata::rodata_of;
use elf_base::Bytes;
use elf_image::ImageParts;
use std::alloc::Global;

impl<'a> Link<'a> {
    /// The parts of the image, by its plan.
    pub(crate) fn image(&self, alloc: Global, plan: &Plan) -> Result<ImageParts, LinkRefusal>
        requires ready { IsReady self.now }
        requires valid { AllByRecursion IsValid (objects_of self.now.objects.now) }
        requires accepted { IsAccepted (objects_of self.now.objects.now) plan.now }
        requires places { self.now.layout.bases ≡ bases_by plan.now.totals plan.now.count }
        ensures image { IfOk result (λ p. Linked (objects_of self.now.objects.now) (image_of p)) }
        ensures memory { IfErr result (λ r. r ≡ NoMemory) }
    {
        let bases = self.layout.bases;
        let relocs = self.relocations(alloc)?;
        let rodata = rodata_of(alloc, self.objects)?;
        let words = self.code(alloc)?;
        let filled = self.filled(alloc, plan.totals.filled as u64)?;
        let descriptors = descriptors(alloc, bases.filled, &plan.spans)?;
        Ok(ImageParts {
            entry: bases.code,
            relocs,
            descriptors: Bytes::new(descriptors),
            rodata: Bytes::new(rodata),
            words,
            filled: Bytes::new(filled),
            zero_bytes: plan.totals.zeros as u64,
        })
    }
}

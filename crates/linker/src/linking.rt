ghost use Rattle.std.specs.Prelude.{IfOk, IfErr};
ghost use Rattle.std.specs.List.{AllByRecursion};
ghost use Rattle.elf_obj.specs.ObjectFile.{IsValid};
ghost use Rattle.elf_image.specs.Image.{image_of};
ghost use Rattle.elf_image.specs.Places.{IsValid as IsValidImage};
ghost use Rattle.linker.specs.Linked.{Linked};
ghost use Rattle.linker.specs.Known.{objects_of, Refuses};

use crate::layout::Layout;
use crate::lengths::lengths_of;
use crate::names::bound_names;
use crate::plan::{plan_of, section_starts};
use crate::refusal::LinkRefusal;
use crate::relocate::Link;
use crate::table::table_of;
use elf_image::ImageParts;
use elf_obj::ObjectParts;
use std::alloc::Global;

/// The image of valid objects, of which there are 16 at most, or the first condition that refuses them. docs/FILES.md has the rules.
pub fn link(alloc: Global, objects: &[ObjectParts]) -> Result<ImageParts, LinkRefusal>
    requires { AllByRecursion IsValid (objects_of objects.now) }
    ensures image { IfOk result (λ p. Linked (objects_of objects.now) (image_of p)) }
    ensures valid { IfOk result (λ p. IsValidImage (image_of p)) }
    ensures refused { IfErr result (Refuses (objects_of objects.now)) }
{
    let names = bound_names(alloc, objects)?;
    let table = table_of(alloc, &names, objects)?;
    let lengths = lengths_of(alloc, objects)?;
    let starts = section_starts(alloc, &lengths, 8 * table.len() as u128)?;
    let plan = plan_of(alloc, objects, &lengths, &starts, table.len())?;
    if let Some(bytes) = plan.excess() {
        return Err(LinkRefusal::ImageTooLarge { bytes });
    }
    let bases = plan.bases();
    let link = Link {
        objects,
        names,
        table,
        layout: Layout { bases, starts },
    };
    link.image(alloc, &plan)
}

// The start of an image.
ghost use Rattle.std.specs.Prelude.{◌≡◌, ◌≢◌, ◌⊎◌, [], IfErr, IfOk, MatchResult};
ghost use Rattle.elf_image.specs.Image.{image_of};
ghost use Rattle.elf_image.specs.Places.{IsValid};
ghost use Rattle.tag_startup.specs.Memory.{IsMapped, IsStarted};
ghost use Rattle.tag_startup.specs.Parts.{IsStack};
ghost use Rattle.tag_startup.specs.Starts.{Starts, StartFault};

use crate::judge::objects_of;
use crate::parts::{LOAD_ADDRESS, STACK_END, guard_of, regions_of};
use crate::refusal::StartRefusal;
use crate::relocate::relocate;
use crate::tags::{choices_drawn, first_tag, tag_objects};
use elf_image::{ImageParts, push_code, push_writable, read_only_bytes};
use mt_base::Tag;
use mte_machine::Machine;
use std::alloc::{AllocError, Global};
use tag_mem::TagMemory;
use tag_pages::PagedMemory;

/// The machine with this image at its start. The choices, of which there is one at least, are the random tags that a
/// run draws in turn, and the stack has so many bytes: a multiple of 1,024 from 1,024 to 67,108,864.
pub fn start(
    alloc: Global,
    image: &ImageParts,
    choices: &[Tag],
    stack: u64,
) -> Result<Machine<PagedMemory>, StartRefusal>
    requires valid { IsValid (image_of image.now) }
    requires choices { choices.now ≢ [] }
    requires stack { IsStack stack }
    // The machine is that of an image that starts, in its first state.
    ensures started { IfOk result (λ machine.
        IsStarted ⟦<PagedMemory as TagMemory>⟧ machine (image_of image.now) choices.now stack) }

    // An image that starts is started, unless memory runs out.
    ensures starts { Starts (image_of image.now) → IfErr result (λ e. e ≡ StartRefusal.NoMemory) }

    // What is refused is refused for the first condition that fails, unless memory ran out, and where one fails it is.
    ensures refused { IfErr result (λ e. (e ≡ StartRefusal.NoMemory) ⊎ StartFault (image_of image.now) e) }
    ensures refuses { (fault : StartRefusal) → StartFault (image_of image.now) fault →
        MatchResult result (λ _. ⊥) (λ e. (e ≡ fault) ⊎ (e ≡ StartRefusal.NoMemory)) }
{
    machine_of(alloc, image, choices, stack)
}

// The machine, by what its clauses stand on.
fn machine_of(
    alloc: Global,
    image: &ImageParts,
    choices: &[Tag],
    stack: u64,
) -> Result<Machine<PagedMemory>, StartRefusal>
    requires valid { IsValid (image_of image.now) }
    requires choices { choices.now ≢ [] }
    requires stack { IsStack stack }
    ensures started { IfOk result (λ machine.
        IsStarted ⟦<PagedMemory as TagMemory>⟧ machine (image_of image.now) choices.now stack) }
    ensures refused { IfErr result (λ e. (e ≡ StartRefusal.NoMemory) ⊎ StartFault (image_of image.now) e) }
{
    let objects = objects_of(alloc, image)?;
    let mut memory = memory_of(alloc, image, stack)?;
    tag_objects(&mut memory, &objects, first_tag(choices));
    relocate(alloc, &mut memory, &image.relocs)?;
    let choices = Vec::from_slice(alloc, choices)?;
    let pc = LOAD_ADDRESS.wrapping_add(image.entry);
    let drawn = choices_drawn(&objects);
    Ok(Machine::new(memory, pc, STACK_END, choices, drawn))
}

// The memory of an image with a stack of so many bytes, as the image's file has it.
fn memory_of(alloc: Global, image: &ImageParts, stack: u64) -> Result<PagedMemory, AllocError>
    requires valid { IsValid (image_of image.now) }
    requires stack { IsStack stack }
    ensures { IfOk result (λ m. IsMapped ⟦<PagedMemory as TagMemory>⟧ m (image_of image.now) stack) }
{
    let regions = regions_of(alloc, image, stack)?;
    let mut memory = PagedMemory::zeros(alloc, regions, guard_of(stack))?;
    let tables = read_only_bytes(alloc, image)?;
    memory.load(LOAD_ADDRESS, &tables);
    let mut words = Vec::new(alloc);
    push_code(&mut words, image)?;
    memory.load(LOAD_ADDRESS + image.code_place(), &words);
    let mut entries = Vec::new(alloc);
    push_writable(&mut entries, image)?;
    memory.load(LOAD_ADDRESS + image.dynamic_place(), &entries);
    Ok(memory)
}

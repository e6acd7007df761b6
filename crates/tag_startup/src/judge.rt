// Whether an image starts, and the objects that it tags.
ghost use Rattle.std.specs.Prelude.{◌≡◌, ◌⊎◌, ◌<◌, ◌^◌, length, IfErr, IfOk, IfSome};
ghost use Rattle.std.specs.List.{position};
ghost use Rattle.elf_image.specs.Image.{image_of};
ghost use Rattle.elf_image.specs.Places.{IsValid};
ghost use Rattle.tag_startup.specs.Starts.{AreObjects, StartFault, counted_on, first_outside, is_misplaced, is_outside};

use crate::refusal::StartRefusal;
use elf_image::{ImageParts, RelativeReloc};
use memtag_desc::{Interval, decode};
use std::alloc::Global;

/// The tagged objects of an image that starts, in order of their addresses, or the first condition that fails.
pub fn objects_of(alloc: Global, image: &ImageParts) -> Result<Vec<Interval>, StartRefusal>
    requires { IsValid (image_of image.now) }
    ensures found { IfOk result (λ v. AreObjects (image_of image.now) v.items) }
    ensures refused { IfErr result (λ e. (e ≡ StartRefusal.NoMemory) ⊎ StartFault (image_of image.now) e) }
{
    let objects = decode(alloc, image.descriptors.as_slice())?;
    match first_outside(image, &objects) {
        None => Ok(objects),
        Some(index) => Err(StartRefusal::Outside {
            index: index as u32,
        }),
    }
}

// The first object or relocation that is not within the writable part. Relocations are counted on after the objects.
fn first_outside(image: &ImageParts, objects: &[Interval]) -> Option<usize>
    requires { IsValid (image_of image.now) }
    ensures { result ≡ first_outside (image_of image.now) objects.now }
{
    let start = image.dynamic_place();
    let end = image.memory_end();
    let reloc = first_reloc(start, end, &image.relocs);
    match first_object(start, end, objects) {
        Some(index) => Some(index),
        None => counted_on(objects, reloc),
    }
}

// An index that is counted on after the objects.
fn counted_on(objects: &[Interval], index: Option<usize>) -> Option<usize>
    requires { IfSome index (λ k. k < 2 ^ 62) }
    ensures { result ≡ counted_on (length objects.now) None index }
{
    match index {
        Some(index) => Some(objects.len() + index),
        None => None,
    }
}

// The first object that is not within a part of the image.
fn first_object(start: u64, end: u64, objects: &[Interval]) -> Option<usize>
    ensures { result ≡ position (is_outside start end) objects.now }
{
    objects.iter().position(|i| is_outside(start, end, i))
}

// The first relocation whose place is not within a part of the image.
fn first_reloc(start: u64, end: u64, relocs: &[RelativeReloc]) -> Option<usize>
    ensures is { result ≡ position (is_misplaced start end) relocs.now }
    ensures near { IfSome result (λ k. k < 2 ^ 62) }
{
    relocs.iter().position(|r| is_misplaced(start, end, r))
}

// Whether an object is not within a part of the image.
fn is_outside(start: u64, end: u64, object: &Interval) -> bool
    ensures { result ≡ is_outside start end object.now }
{
    !(start <= object.start && object.start <= end && object.bytes <= end - object.start)
}

// Whether the place of a relocation is no multiple of 8 or not within a part of the image.
fn is_misplaced(start: u64, end: u64, reloc: &RelativeReloc) -> bool
    ensures { result ≡ is_misplaced start end reloc.now }
{
    !(reloc.place % 8 == 0 && start <= reloc.place && reloc.place <= end && 8 <= end - reloc.place)
}

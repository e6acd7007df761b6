// Where the parts of an image and the stack lie.
ghost use Rattle.std.specs.Prelude.{◌≡◌, ◌≤◌, IfOk};
ghost use Rattle.elf_image.specs.Image.{image_of};
ghost use Rattle.elf_image.specs.Places.{IsValid};
ghost use Rattle.tag_mem.specs.Regions.{span_of};
ghost use Rattle.tag_pages.specs.Parts.{extent, extents};
ghost use Rattle.tag_startup.specs.Parts.{IsStack, loaded_guard, loaded_regions, part, stack_region};

use elf_image::ImageParts;
use mt_base::round16;
use std::alloc::{AllocError, Global};
use tag_mem::Span64;
use tag_pages::Bounds;

/// Where an image is loaded.
pub const LOAD_ADDRESS: u64 = 0x1000_0000;

/// Where the stack ends.
pub const STACK_END: u64 = 0x4000_0000;

// The bytes of the guard below the stack.
const GUARD_BYTES: u64 = 524_288;

/// The guard below a stack of so many bytes.
pub fn guard_of(stack: u64) -> Span64
    requires { IsStack stack }
    ensures { span_of result ≡ loaded_guard stack }
{
    Span64 {
        start: STACK_END - stack - GUARD_BYTES,
        bytes: GUARD_BYTES,
    }
}

/// Where the parts of an image lie, and a stack of so many bytes.
pub fn regions_of(alloc: Global, image: &ImageParts, stack: u64) -> Result<Vec<Bounds>, AllocError>
    requires valid { IsValid (image_of image.now) }
    requires stack { IsStack stack }
    ensures { IfOk result (λ regions. extents regions.items ≡ loaded_regions (image_of image.now) stack) }
{
    let read_only = part_of(0, image.rodata_end(), false, false);
    let code = part_of(image.code_place(), image.code_end(), false, true);
    let data = part_of(image.dynamic_place(), image.memory_end(), true, false);
    Ok(vec![in alloc; read_only, code, data, stack_of(stack)]?)
}

// The part of an image from one place to another.
fn part_of(start: u64, end: u64, writable: bool, executable: bool) -> Bounds
    requires order { start ≤ end }
    requires within { end ≤ 268435456 }
    ensures { extent result ≡ part start end writable executable }
{
    Bounds {
        start: LOAD_ADDRESS + start,
        bytes: round16(end - start),
        writable,
        executable,
    }
}

// A stack of so many bytes.
fn stack_of(stack: u64) -> Bounds
    requires { IsStack stack }
    ensures { extent result ≡ stack_region stack }
{
    Bounds {
        start: STACK_END - stack,
        bytes: stack,
        writable: true,
        executable: false,
    }
}

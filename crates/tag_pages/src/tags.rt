ghost use Rattle.std.specs.Prelude.{◌≡◌, ◌≢◌, ◌↔◌, ◌*◌, ◌/◌, true, false, length, IsSome, IfSome, IfNone, IsTrue};
ghost use Rattle.std.specs.List.{All};
ghost use Rattle.mt_base.specs.Granules.{granule_of};
ghost use Rattle.mt_base.specs.Memory.{is_mapped, is_protected, store_tag};
ghost use Rattle.tag_mem.specs.Answers.{set_tag_answer};
ghost use Rattle.tag_mem.specs.Regions.{span_of, IsWellPlaced};
ghost use Rattle.tag_pages.specs.Pages.{byte_in_pages, tag_in_pages};
ghost use Rattle.tag_pages.specs.Parts.{extents, IsLaidOut, IsPart, IsPartAt};

use crate::bounds::Bounds;
use crate::judge::judge_write;
use crate::page::{PAGE_BYTES, Page};
use crate::part::{Part, part_at};
use mt_base::Tag;
use tag_mem::{Access, Span64};

/// The number of bytes that share a tag.
const GRANULE: u64 = 16;

/// The tag of the granule of an address, or `None` where no region holds the address.
#[inline(always)]
pub fn tag_at(
    regions: &[Bounds],
    numbers: &[u64],
    parts: &[Part],
    pages: &[Page],
    at: u64,
) -> Option<Tag>
    requires laid_out { IsLaidOut (extents regions.now) numbers.now }
    requires entered { All (IsPart (extents regions.now) numbers.now) parts.now }
    requires paged { length pages.now ≡ length numbers.now }
    ensures there { IsSome result ↔ IsTrue (is_mapped (extents regions.now) at) }
    ensures value { IfSome result (λ t. t ≡ tag_in_pages (extents regions.now) numbers.now pages.now (granule_of at)) }
{
    let part = part_at(regions, numbers, parts, at)?;
    Some(pages[part.page].tag((at % PAGE_BYTES as u64 / GRANULE) as usize))
}

/// The part with the address, where it may be written.
#[inline(always)]
fn writable_part(regions: &[Bounds], numbers: &[u64], parts: &[Part], at: u64) -> Option<Part>
    requires laid_out { IsLaidOut (extents regions.now) numbers.now }
    requires entered { All (IsPart (extents regions.now) numbers.now) parts.now }
    ensures found { IfSome result (λ p. IsPartAt (extents regions.now) numbers.now at p) }
    ensures writable { IfSome result (λ p. p.writable ≡ true) }
    ensures none { IfNone result (is_protected (extents regions.now) at ≡ false → is_mapped (extents regions.now) at ≡ false) }
{
    let part = part_at(regions, numbers, parts, at)?;
    if part.writable { Some(part) } else { None }
}

/// Sets the tag of the granule of an address of a part.
#[inline(always)]
fn put_tag(regions: &[Bounds], numbers: &[u64], pages: &mut [Page], part: Part, at: u64, tag: Tag)
    requires laid_out { IsLaidOut (extents regions.now) numbers.now }
    requires paged { length pages.old ≡ length numbers.now }
    requires part { IsPartAt (extents regions.now) numbers.now at part }
    ensures paged { length pages.new ≡ length numbers.now }
    ensures bytes { byte_in_pages (extents regions.now) numbers.now pages.new ≡ byte_in_pages (extents regions.now) numbers.now pages.old }
    ensures tags { tag_in_pages (extents regions.now) numbers.now pages.new
        ≡ store_tag (tag_in_pages (extents regions.now) numbers.now pages.old) at tag }
{
    pages[part.page].set_tag((at % PAGE_BYTES as u64 / GRANULE) as usize, tag);
}

/// Sets the tag of the granule of an address, unless the guard, no region or a region that is not writable is there.
#[inline(always)]
pub fn set_tag_at(
    regions: &[Bounds],
    numbers: &[u64],
    parts: &[Part],
    pages: &mut [Page],
    guard: Span64,
    at: u64,
    tag: Tag,
) -> Access
    requires placed { IsWellPlaced (extents regions.now) (span_of guard) }
    requires laid_out { IsLaidOut (extents regions.now) numbers.now }
    requires entered { All (IsPart (extents regions.now) numbers.now) parts.now }
    requires paged { length pages.old ≡ length numbers.now }
    ensures paged { length pages.new ≡ length numbers.now }
    ensures answer { result ≡ set_tag_answer (extents regions.now) (span_of guard) at }
    ensures done { result ≡ Access.Done → tag_in_pages (extents regions.now) numbers.now pages.new
        ≡ store_tag (tag_in_pages (extents regions.now) numbers.now pages.old) at tag }
    ensures refused { result ≢ Access.Done → tag_in_pages (extents regions.now) numbers.now pages.new
        ≡ tag_in_pages (extents regions.now) numbers.now pages.old }
    ensures bytes { byte_in_pages (extents regions.now) numbers.now pages.new ≡ byte_in_pages (extents regions.now) numbers.now pages.old }
{
    match writable_part(regions, numbers, parts, at) {
        Some(part) => {
            put_tag(regions, numbers, pages, part, at, tag);
            Access::Done
        }
        None => judge_write(
            regions,
            numbers,
            parts,
            guard,
            at / GRANULE * GRANULE,
            GRANULE as usize,
        ),
    }
}

ghost use Rattle.std.specs.Prelude.{◌≡◌, length};
ghost use Rattle.std.specs.List.{All};
ghost use Rattle.tag_mem.specs.Regions.{byte_in, extents_of};
ghost use Rattle.tag_pages.specs.Pages.{byte_in_pages, tag_in_pages};
ghost use Rattle.tag_pages.specs.Parts.{extents, IsLaidOut, IsPart};

use crate::bounds::Bounds;
use crate::copy::scatter;
use crate::page::Page;
use crate::part::Part;
use tag_mem::Region;

/// Puts the bytes of the regions into the pages, which are zero before. Each region is dropped when its bytes were put.
pub fn fill(
    bounds: &[Bounds],
    numbers: &[u64],
    parts: &[Part],
    pages: &mut [Page],
    mut regions: Vec<Region>,
)
    requires bounds { extents bounds.now ≡ extents_of regions.items }
    requires laid_out { IsLaidOut (extents bounds.now) numbers.now }
    requires entered { All (IsPart (extents bounds.now) numbers.now) parts.now }
    requires paged { length pages.old ≡ length numbers.now }
    requires zero { byte_in_pages (extents bounds.now) numbers.now pages.old ≡ (λ _. 0) }
    ensures paged { length pages.new ≡ length numbers.now }
    ensures bytes { byte_in_pages (extents bounds.now) numbers.now pages.new ≡ byte_in regions.items }
    ensures tags { tag_in_pages (extents bounds.now) numbers.now pages.new ≡ tag_in_pages (extents bounds.now) numbers.now pages.old }
{
    while let Some(region) = regions.pop() {
        scatter(bounds, numbers, parts, pages, region.start, &region.bytes);
    }
}

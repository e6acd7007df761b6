ghost use Rattle.std.specs.Prelude.{◌≡◌, ◌<◌, IfOk, length};
ghost use Rattle.std.specs.List.{All};
ghost use Rattle.tag_pages.specs.Parts.{extents, IsLaidOut, IsPart};

use crate::bounds::Bounds;
use crate::part::{Part, entry_of, part_of};
use std::alloc::{AllocError, Global};

/// The least number of entries.
const LEAST: usize = 1024;

/// A table with one entry or more for each page, in which a look-up begins: for each remainder that the number of a page
/// leaves, a part of such a page.
///
/// A look-up tests what it finds, so no contract says which part stands where.
pub fn table_of(alloc: Global, regions: &[Bounds], numbers: &[u64]) -> Result<Vec<Part>, AllocError>
    requires laid_out { IsLaidOut (extents regions.now) numbers.now }
    ensures { IfOk result (λ parts. All (IsPart (extents regions.now) numbers.now) parts.items) }
{
    let entries = numbers.len().max(LEAST).min(1 << 48).next_power_of_two();
    let mut parts = vec![in alloc; Part::none(); entries]?;
    for place in 0..regions.len() {
        enter_region(regions, numbers, &mut parts, place);
    }
    Ok(parts)
}

/// Enters the parts of one region.
fn enter_region(regions: &[Bounds], numbers: &[u64], parts: &mut [Part], place: usize)
    requires laid_out { IsLaidOut (extents regions.now) numbers.now }
    requires in_range { place < length regions.now }
    requires entered { All (IsPart (extents regions.now) numbers.now) parts.old }
    ensures entered { All (IsPart (extents regions.now) numbers.now) parts.new }
{
    let region = regions[place];
    let mut done = 0;
    while done < region.bytes {
        let part = part_of(regions, numbers, place, region.start + done);
        let entry = entry_of(part.first, parts.len());
        if entry < parts.len() {
            parts[entry] = part;
        }
        done = part.last - region.start + 1;
    }
}

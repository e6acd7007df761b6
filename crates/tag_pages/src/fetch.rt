ghost use Rattle.std.specs.Prelude.{◌≡◌, ◌↔◌, length, IsSome, IfSome, IsTrue};
ghost use Rattle.std.specs.List.{All};
ghost use Rattle.mt_base.specs.Memory.{load};
ghost use Rattle.tag_mem.specs.Answers.{is_fetchable};
ghost use Rattle.tag_pages.specs.Pages.{byte_in_pages};
ghost use Rattle.tag_pages.specs.Parts.{extents, IsLaidOut, IsPart};

use crate::bounds::Bounds;
use crate::page::{PAGE_BYTES, Page};
use crate::part::{Part, part_at};

/// The word at the address, or `None` where the address is no multiple of 4 or in no executable region.
#[inline(always)]
pub fn fetch_word(
    regions: &[Bounds],
    numbers: &[u64],
    parts: &[Part],
    pages: &[Page],
    at: u64,
) -> Option<u32>
    requires laid_out { IsLaidOut (extents regions.now) numbers.now }
    requires entered { All (IsPart (extents regions.now) numbers.now) parts.now }
    requires paged { length pages.now ≡ length numbers.now }
    ensures there { IsSome result ↔ IsTrue (is_fetchable (extents regions.now) at) }
    ensures value { IfSome result (λ w. w ≡ load 4 (byte_in_pages (extents regions.now) numbers.now pages.now) at) }
{
    if at % 4 != 0 {
        return None;
    }
    let part = part_at(regions, numbers, parts, at)?;
    if part.executable {
        Some(pages[part.page].word((at % PAGE_BYTES as u64) as usize))
    } else {
        None
    }
}

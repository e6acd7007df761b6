ghost use Rattle.std.specs.Prelude.{◌≡◌, ℕ, ◌+◌, ◌<◌, ◌≤◌, ◌&&◌, nat_le, true, false, IfSome, IfNone, length, slice_index_or};
ghost use Rattle.std.specs.List.{All};
ghost use Rattle.mt_base.specs.Memory.{is_in_extent, is_mapped};
ghost use Rattle.tag_pages.specs.Parts.{extent, extents, IsLaidOut, IsPart, IsPartAt};
ghost use Rattle.tag_pages.specs.declared.bounds.Bounds.{Bounds};

use crate::bounds::Bounds;
use crate::page::PAGE_BYTES;

/// The addresses that one region has in one page: where their bytes stand, and what may be done there.
#[derive(Clone, Copy)]
pub struct Part {
    /// The first address.
    pub first: u64,
    /// The last address, which is below the first one where there is none.
    pub last: u64,
    /// The place of the page among the pages.
    pub page: usize,
    /// Whether bytes and tags may be written.
    pub writable: bool,
    /// Whether instructions may be fetched.
    pub executable: bool,
}

impl Part {
    /// A part without an address.
    pub fn none() -> Part
        ensures { result.last < result.first }
    {
        Part {
            first: 1,
            last: 0,
            page: 0,
            writable: false,
            executable: false,
        }
    }

    /// Whether the address is one of them.
    fn holds(&self, at: u64) -> bool
        ensures { result ≡ (nat_le self.now.first at && nat_le at self.now.last) }
    {
        self.first <= at && at <= self.last
    }

    /// How many of the `most` addresses from one on are of this part.
    pub fn room(&self, from: u64, most: usize) -> usize
        requires held { from ≤ self.now.last }
        requires near { self.now.last ≤ from + 4095 }
        ensures at_most { result ≤ most }
        ensures within { from + result ≤ self.now.last + 1 }
        ensures some { 0 < most → 0 < result }
    {
        most.min((self.last - from) as usize + 1)
    }
}

/// The part with an address of the region at that place.
pub fn part_of(regions: &[Bounds], numbers: &[u64], place: usize, at: u64) -> Part
    requires laid_out { IsLaidOut (extents regions.now) numbers.now }
    requires in_range { place < length regions.now }
    requires holds { (d : Bounds) → is_in_extent (extent (slice_index_or regions.now place d)) at ≡ true }
    ensures part { IsPartAt (extents regions.now) numbers.now at result }
    ensures within { (d : Bounds) → result.last < (slice_index_or regions.now place d).start + (slice_index_or regions.now place d).bytes }
{
    let region = &regions[place];
    let number = at / PAGE_BYTES as u64;
    let start = number * PAGE_BYTES as u64;
    match numbers.binary_search(&number) {
        Ok(page) => Part {
            first: region.start.max(start),
            last: (region.start + (region.bytes - 1)).min(start + (PAGE_BYTES as u64 - 1)),
            page,
            writable: region.writable,
            executable: region.executable,
        },
        Err(_) => unreachable!(),
    }
}

/// The part with the address, by a look at each region.
#[inline(never)]
fn find_part(regions: &[Bounds], numbers: &[u64], at: u64) -> Option<Part>
    requires laid_out { IsLaidOut (extents regions.now) numbers.now }
    ensures found { IfSome result (λ p. IsPartAt (extents regions.now) numbers.now at p) }
    ensures none { IfNone result (is_mapped (extents regions.now) at ≡ false) }
{
    for (place, region) in regions.iter().enumerate() {
        if region.holds(at) {
            return Some(part_of(regions, numbers, place, at));
        }
    }
    None
}

/// The entry of the table for the page of an address.
pub fn entry_of(at: u64, entries: usize) -> usize {
    (at / PAGE_BYTES as u64) as usize & entries.wrapping_sub(1)
}

/// The part that the table has for the page of an address.
#[inline(always)]
fn first_guess(regions: &[Bounds], numbers: &[u64], parts: &[Part], at: u64) -> Option<Part>
    requires entered { All (IsPart (extents regions.now) numbers.now) parts.now }
    ensures { IfSome result (λ p. IsPart (extents regions.now) numbers.now p) }
{
    let entry = entry_of(at, parts.len());
    if entry < parts.len() {
        Some(parts[entry])
    } else {
        None
    }
}

/// The part with the address. The table says where to look first.
#[inline(always)]
pub fn part_at(regions: &[Bounds], numbers: &[u64], parts: &[Part], at: u64) -> Option<Part>
    requires laid_out { IsLaidOut (extents regions.now) numbers.now }
    requires entered { All (IsPart (extents regions.now) numbers.now) parts.now }
    ensures found { IfSome result (λ p. IsPartAt (extents regions.now) numbers.now at p) }
    ensures none { IfNone result (is_mapped (extents regions.now) at ≡ false) }
{
    if let Some(part) = first_guess(regions, numbers, parts, at)
        && part.holds(at)
    {
        return Some(part);
    }
    find_part(regions, numbers, at)
}

/// The part with the address `at + done`.
pub fn part_behind(
    regions: &[Bounds],
    numbers: &[u64],
    parts: &[Part],
    at: u64,
    done: usize,
) -> Option<Part>
    requires laid_out { IsLaidOut (extents regions.now) numbers.now }
    requires entered { All (IsPart (extents regions.now) numbers.now) parts.now }
    ensures found { IfSome result (λ p. IsPartAt (extents regions.now) numbers.now (at + done) p) }
    ensures none { IfNone result (is_mapped (extents regions.now) (at + done) ≡ false) }
{
    let address = at.checked_add(done as u64)?;
    part_at(regions, numbers, parts, address)
}

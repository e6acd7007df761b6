ghost use Rattle.std.specs.Prelude.{◌≡◌, ℕ, true, IfOk, length};
ghost use Rattle.std.specs.List.{All};
ghost use Rattle.tag_mem.specs.Regions.{extents_of, span_of, byte_in, IsWellPlaced};
ghost use Rattle.tag_pages.specs.Parts.{extents, IsLaidOut, IsPart};

use crate::bounds::{Bounds, bounds_of};
use crate::copy::{read_bytes, scatter, write_bytes};
use crate::fetch::fetch_word;
use crate::fill::fill;
use crate::numbers::numbers_of;
use crate::page::Page;
use crate::part::Part;
use crate::table::table_of;
use crate::tags::{set_tag_at, tag_at};
use mt_base::Tag;
use std::alloc::{AllocError, Global};
use tag_mem::{Access, Region, Span64, TagMemory};

/// Memory in pages of 4,096 bytes with their tags.
#[derive(Drop)]
pub struct PagedMemory {
    /// The pages in which the regions have addresses.
    pub pages: Vec<Page>,
    /// The number of each page: its first address by 4,096. They increase.
    pub numbers: Vec<u64>,
    regions: Vec<Bounds>,
    /// Where to look for the page of an address.
    parts: Vec<Part>,
    guard: Span64,
    ghost placed: { IsWellPlaced (extents regions.items) (span_of guard) },
    ghost laid_out: { IsLaidOut (extents regions.items) numbers.items },
    ghost entered: { All (IsPart (extents regions.items) numbers.items) parts.items },
    ghost paged: { length pages.items ≡ length numbers.items },
}

impl PagedMemory {
    /// Memory with these regions, all of whose granules have the tag 0, and this guard.
    ///
    /// The regions and the guard start at multiples of 16 and have lengths that are, no address is in two of them, and no
    /// region goes past the last address of 64 bits. No call on the memory takes more.
    pub fn new(
        alloc: Global,
        regions: Vec<Region>,
        guard: Span64,
    ) -> Result<PagedMemory, AllocError>
        requires { IsWellPlaced (extents_of regions.items) (span_of guard) }
        ensures regions { IfOk result (λ m. ⟦<PagedMemory as TagMemory>⟧.regions m ≡ extents_of regions.items) }
        ensures guard { IfOk result (λ m. ⟦<PagedMemory as TagMemory>⟧.guard m ≡ span_of guard) }
        ensures bytes { IfOk result (λ m. ⟦<PagedMemory as TagMemory>⟧.byte m ≡ byte_in regions.items) }
        ensures tags { IfOk result (λ m. (granule : ℕ) → ⟦<PagedMemory as TagMemory>⟧.tags m granule ≡ 0) }
    {
        let bounds = bounds_of(alloc, &regions)?;
        let numbers = numbers_of(alloc, &bounds)?;
        let parts = table_of(alloc, &bounds, &numbers)?;
        let mut pages = vec![in alloc; Page::blank(); numbers.len()]?;
        fill(&bounds, &numbers, &parts, &mut pages, regions);
        Ok(PagedMemory {
            pages,
            numbers,
            regions: bounds,
            parts,
            guard,
        })
    }
}

impl PagedMemory {
    ghost use Rattle.mt_base.specs.Memory.{is_mapped, every_byte, store_bytes};

    /// The same with bounds in the place of regions: all bytes are 0.
    pub fn zeros(
        alloc: Global,
        regions: Vec<Bounds>,
        guard: Span64,
    ) -> Result<PagedMemory, AllocError>
        requires { IsWellPlaced (extents regions.items) (span_of guard) }
        ensures regions { IfOk result (λ m. ⟦<PagedMemory as TagMemory>⟧.regions m ≡ extents regions.items) }
        ensures guard { IfOk result (λ m. ⟦<PagedMemory as TagMemory>⟧.guard m ≡ span_of guard) }
        ensures bytes { IfOk result (λ m. (at : ℕ) → ⟦<PagedMemory as TagMemory>⟧.byte m at ≡ 0) }
        ensures tags { IfOk result (λ m. (granule : ℕ) → ⟦<PagedMemory as TagMemory>⟧.tags m granule ≡ 0) }
    {
        let numbers = numbers_of(alloc, &regions)?;
        let parts = table_of(alloc, &regions, &numbers)?;
        let pages = vec![in alloc; Page::blank(); numbers.len()]?;
        Ok(PagedMemory {
            pages,
            numbers,
            regions,
            parts,
            guard,
        })
    }

    /// Puts bytes to the address, whether or not they may be written there.
    pub fn load(&mut self, at: u64, bytes: &[u8])
        requires { every_byte (is_mapped (⟦<PagedMemory as TagMemory>⟧.regions self.old)) at (length bytes.now) ≡ true }
        ensures bytes { ⟦<PagedMemory as TagMemory>⟧.byte self.new ≡ store_bytes (⟦<PagedMemory as TagMemory>⟧.byte self.old) at bytes.now }
        ensures tags { ⟦<PagedMemory as TagMemory>⟧.tags self.new ≡ ⟦<PagedMemory as TagMemory>⟧.tags self.old }
        ensures regions { ⟦<PagedMemory as TagMemory>⟧.regions self.new ≡ ⟦<PagedMemory as TagMemory>⟧.regions self.old }
        ensures guard { ⟦<PagedMemory as TagMemory>⟧.guard self.new ≡ ⟦<PagedMemory as TagMemory>⟧.guard self.old }
    {
        scatter(
            &self.regions,
            &self.numbers,
            &self.parts,
            &mut self.pages,
            at,
            bytes,
        );
    }
}

impl TagMemory for PagedMemory {
    ghost use Rattle.tag_mem.specs.Regions.{span_of};
    ghost use Rattle.tag_pages.specs.Pages.{byte_in_pages, tag_in_pages};
    ghost use Rattle.tag_pages.specs.Parts.{extents};
    ghost use Rattle.tag_pages.specs.Laws.{byte_in_pages-lt, tag_in_pages-lt};

    ghost byte = { λ m. byte_in_pages (extents m.regions.items) m.numbers.items m.pages.items };

    ghost tags = { λ m. tag_in_pages (extents m.regions.items) m.numbers.items m.pages.items };

    ghost regions = { λ m. extents m.regions.items };

    ghost guard = { λ m. span_of m.guard };

    ghost byte_below = { λ m at. byte_in_pages-lt (extents m.regions.items) m.numbers.items m.pages.items at };

    ghost tags_below = { λ m granule. tag_in_pages-lt (extents m.regions.items) m.numbers.items m.pages.items granule };

    ghost well_placed = { λ m. m.placed };

    fn read(&self, at: u64, out: &mut [u8]) -> Access {
        read_bytes(
            &self.regions,
            &self.numbers,
            &self.parts,
            &self.pages,
            self.guard,
            at,
            out,
        )
    }

    fn write(&mut self, at: u64, bytes: &[u8]) -> Access {
        write_bytes(
            &self.regions,
            &self.numbers,
            &self.parts,
            &mut self.pages,
            self.guard,
            at,
            bytes,
        )
    }

    fn tag(&self, at: u64) -> Option<Tag> {
        tag_at(&self.regions, &self.numbers, &self.parts, &self.pages, at)
    }

    fn set_tag(&mut self, at: u64, tag: Tag) -> Access {
        set_tag_at(
            &self.regions,
            &self.numbers,
            &self.parts,
            &mut self.pages,
            self.guard,
            at,
            tag,
        )
    }

    fn fetch(&self, at: u64) -> Option<u32> {
        fetch_word(&self.regions, &self.numbers, &self.parts, &self.pages, at)
    }
}

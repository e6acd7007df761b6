ghost use Rattle.std.specs.Prelude.{◌≡◌, ℕ, IfOk};
ghost use Rattle.tag_mem.specs.Regions.{extents_of, span_of, byte_in, tag_in, IsWellPlaced, HaveTags};

use crate::access::{Access, TagMemory};
use crate::copy::{read_bytes, write_bytes};
use crate::fetch::fetch_word;
use crate::index::index_of;
use crate::judge::judge_write;
use crate::region::{Region, Span64};
use crate::tags::{put_tag, tag_at};
use mt_base::Tag;
use std::alloc::{AllocError, Global};

/// Memory whose regions are each one list of bytes and one of tags.
#[derive(Drop)]
pub struct FlatMemory {
    regions: Vec<Region>,
    /// Where to look for the region of an address.
    index: Vec<usize>,
    /// For each region the tags of its granules.
    tags: Vec<Vec<Tag>>,
    guard: Span64,
    ghost placed: { IsWellPlaced (extents_of regions.items) (span_of guard) },
    ghost tagged: { HaveTags (extents_of regions.items) tags.items },
}

impl FlatMemory {
    /// Memory with these regions, all of whose granules have the tag 0, and this guard.
    ///
    /// The regions and the guard start at multiples of 16 and have lengths that are, no address is in two of them, and no
    /// region goes past the last address of 64 bits.
    pub fn new(alloc: Global, regions: Vec<Region>, guard: Span64) -> Result<FlatMemory, AllocError>
        requires { IsWellPlaced (extents_of regions.items) (span_of guard) }
        ensures regions { IfOk result (λ m. ⟦<FlatMemory as TagMemory>⟧.regions m ≡ extents_of regions.items) }
        ensures guard { IfOk result (λ m. ⟦<FlatMemory as TagMemory>⟧.guard m ≡ span_of guard) }
        ensures bytes { IfOk result (λ m. ⟦<FlatMemory as TagMemory>⟧.byte m ≡ byte_in regions.items) }
        ensures tags { IfOk result (λ m. (granule : ℕ) → ⟦<FlatMemory as TagMemory>⟧.tags m granule ≡ 0) }
    {
        let index = index_of(alloc, &regions)?;
        let mut tags = Vec::new(alloc);
        for region in &regions {
            tags.push(vec![in alloc; Tag::zero(); region.bytes.len() / 16]?)?;
        }
        Ok(FlatMemory {
            regions,
            index,
            tags,
            guard,
        })
    }
}

impl TagMemory for FlatMemory {
    ghost use Rattle.tag_mem.specs.Regions.{extents_of, span_of, byte_in, tag_in};
    ghost use Rattle.tag_mem.specs.Laws.Regions.{byte_in-lt, tag_in-lt};

    ghost byte = { λ m. byte_in m.regions.items };

    ghost tags = { λ m. tag_in (extents_of m.regions.items) m.tags.items };

    ghost regions = { λ m. extents_of m.regions.items };

    ghost guard = { λ m. span_of m.guard };

    ghost byte_below = { λ m at. byte_in-lt m.regions.items at };

    ghost tags_below = { λ m granule. tag_in-lt (extents_of m.regions.items) m.tags.items granule };

    ghost well_placed = { λ m. m.placed };

    fn read(&self, at: u64, out: &mut [u8]) -> Access {
        read_bytes(&self.regions, &self.index, self.guard, at, out)
    }

    fn write(&mut self, at: u64, bytes: &[u8]) -> Access {
        write_bytes(&mut self.regions, &self.index, self.guard, at, bytes)
    }

    fn tag(&self, at: u64) -> Option<Tag> {
        tag_at(&self.regions, &self.index, &self.tags, at)
    }

    fn set_tag(&mut self, at: u64, tag: Tag) -> Access {
        let answer = judge_write(&self.regions, &self.index, self.guard, at / 16 * 16, 16);
        if let Access::Done = answer {
            put_tag(&self.regions, &self.index, &mut self.tags, at, tag);
        }
        answer
    }

    fn fetch(&self, at: u64) -> Option<u32> {
        fetch_word(&self.regions, &self.index, at)
    }
}

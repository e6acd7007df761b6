ghost use Rattle.std.specs.Prelude.{◌≡◌, ◌↔◌, ℕ, true, IsSome, IfSome, IsTrue};
ghost use Rattle.std.specs.List.{All, AllPairs};
ghost use Rattle.mt_base.specs.Granules.{granule_of};
ghost use Rattle.mt_base.specs.Memory.{is_mapped, store_tag};
ghost use Rattle.tag_mem.specs.Regions.{extents_of, tag_in, AreApart, IsWhole, HaveTags};

use crate::chunk::region_at;
use crate::region::Region;
use mt_base::Tag;

/// The tag of the granule of an address, or `None` where no region holds the address.
pub fn tag_at(regions: &[Region], index: &[usize], tags: &[Vec<Tag>], at: u64) -> Option<Tag>
    requires whole { All IsWhole (extents_of regions.now) }
    requires apart { AllPairs AreApart (extents_of regions.now) }
    requires tagged { HaveTags (extents_of regions.now) tags.now }
    ensures there { IsSome result ↔ IsTrue (is_mapped (extents_of regions.now) at) }
    ensures value { IfSome result (λ t. t ≡ tag_in (extents_of regions.now) tags.now (granule_of at)) }
{
    let place = region_at(regions, index, at)?;
    let offset = (at - regions[place].start) as usize;
    let tag = tags[place][offset / 16];
    prove!(tag.value() < 16);
    Some(tag)
}

/// Sets the tag of the granule of an address, which is in a region.
pub fn put_tag(regions: &[Region], index: &[usize], tags: &mut [Vec<Tag>], at: u64, tag: Tag)
    requires whole { All IsWhole (extents_of regions.now) }
    requires apart { AllPairs AreApart (extents_of regions.now) }
    requires tagged { HaveTags (extents_of regions.now) tags.old }
    requires mapped { is_mapped (extents_of regions.now) at ≡ true }
    ensures tagged { HaveTags (extents_of regions.now) tags.new }
    ensures tags { tag_in (extents_of regions.now) tags.new ≡ store_tag (tag_in (extents_of regions.now) tags.old) at tag }
{
    let Some(place) = region_at(regions, index, at) else {
        unreachable!();
    };
    let offset = (at - regions[place].start) as usize;
    prove!(tag.value() < 16);
    tags[place][offset / 16] = tag;
}

ghost use Rattle.std.specs.Prelude.{◌≡◌, ℕ, ◌+◌, ◌*◌, ◌<◌, ◌≤◌, ◌^◌, ◌↔◌, IsTrue, IfSome, IfNone, true, false, length, slice_index};
ghost use Rattle.std.specs.Prelude.{slice_index_or, take, drop};
ghost use Rattle.std.specs.List.{All, AllPairs};
ghost use Rattle.mt_base.specs.Memory.{is_mapped, bytes_at};
ghost use Rattle.tag_mem.specs.Regions.{extents_of, byte_in, AreApart, IsWhole, IsHeldBy, IsChunk};
ghost use Rattle.tag_mem.specs.declared.region.Region.{Region};

use crate::index::first_guess;
use crate::region::Region;

/// Bytes of one region that stand one after another.
#[derive(Clone, Copy)]
pub struct Chunk {
    /// The place of the region among the regions.
    pub region: usize,
    /// The place of the first byte in the region.
    pub offset: usize,
    /// How many bytes there are.
    pub count: usize,
}

/// The place of the region that holds the address. The index says where to look first.
pub fn region_at(regions: &[Region], index: &[usize], at: u64) -> Option<usize>
    ensures found { IfSome result (λ i. IsHeldBy regions.now i at) }
    ensures none { IfNone result (is_mapped (extents_of regions.now) at ≡ false) }
{
    if let Some(place) = first_guess(index, at)
        && place < regions.len()
        && regions[place].holds(at)
    {
        return Some(place);
    }
    scan(regions, at)
}

/// The same, with no index.
fn scan(regions: &[Region], at: u64) -> Option<usize>
    ensures found { IfSome result (λ i. IsHeldBy regions.now i at) }
    ensures none { IfNone result (is_mapped (extents_of regions.now) at ≡ false) }
{
    for (place, region) in regions.iter().enumerate() {
        if region.holds(at) {
            return Some(place);
        }
    }
    None
}

/// The bytes from the address `at + done` on that stand in the region which holds it, at most `most` of them.
pub fn chunk_at(
    regions: &[Region],
    index: &[usize],
    at: u64,
    done: usize,
    most: usize,
) -> Option<Chunk>
    requires { All IsWhole (extents_of regions.now) }
    ensures found { IfSome result (λ c. IsChunk regions.now (at + done) most c) }
    ensures none { IfNone result (is_mapped (extents_of regions.now) (at + done) ≡ false) }
{
    let Some(address) = at.checked_add(done as u64) else {
        return None;
    };
    let place = region_at(regions, index, address)?;
    let region = &regions[place];
    let offset = (address - region.start) as usize;
    Some(Chunk {
        region: place,
        offset,
        count: most.min(region.bytes.len() - offset),
    })
}

/// The bytes of the chunk.
pub fn chunk_bytes(regions: &[Region], chunk: Chunk) -> &[u8]
    requires apart { AllPairs AreApart (extents_of regions.now) }
    requires in_range { chunk.region < length regions.now }
    requires within { (d : Region) → chunk.offset + chunk.count ≤ length (slice_index_or regions.now chunk.region d).bytes.items }
    ensures len { length result.now ≡ chunk.count }
    ensures value { (at most : ℕ) → IsChunk regions.now at most chunk → result.now ≡ bytes_at chunk.count (byte_in regions.now) at }
{
    part_of(&regions[chunk.region].bytes, chunk.offset, chunk.count)
}

/// So many bytes from the place `from` on.
fn part_of(bytes: &[u8], from: usize, count: usize) -> &[u8]
    requires { from + count ≤ length bytes.now }
    ensures value { result.now ≡ take count (drop from bytes.now) }
    ensures in_range { (k : ℕ) → slice_index bytes.now k < 256 }
{
    &bytes[from..from + count]
}

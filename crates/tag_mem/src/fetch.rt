ghost use Rattle.std.specs.Prelude.{◌≡◌, ℕ, ◌+◌, ◌<◌, ◌≤◌, ◌↔◌, length, slice_index, IsSome, IfSome, IsTrue};
ghost use Rattle.std.specs.List.{All, AllPairs};
ghost use Rattle.mt_base.specs.Memory.{load};
ghost use Rattle.tag_mem.specs.Answers.{is_fetchable};
ghost use Rattle.tag_mem.specs.Regions.{extents_of, byte_in, AreApart, IsWhole};

use crate::chunk::region_at;
use crate::region::Region;

/// The word at the address, or `None` where the address is no multiple of 4 or in no executable region.
pub fn fetch_word(regions: &[Region], index: &[usize], at: u64) -> Option<u32>
    requires whole { All IsWhole (extents_of regions.now) }
    requires apart { AllPairs AreApart (extents_of regions.now) }
    ensures there { IsSome result ↔ IsTrue (is_fetchable (extents_of regions.now) at) }
    ensures value { IfSome result (λ w. w ≡ load 4 (byte_in regions.now) at) }
{
    if at % 4 != 0 {
        return None;
    }
    let place = region_at(regions, index, at)?;
    let region = &regions[place];
    if region.executable {
        Some(word_at(&region.bytes, (at - region.start) as usize))
    } else {
        None
    }
}

/// The number of four bytes from the place on, the lowest first.
fn word_at(bytes: &[u8], place: usize) -> u32
    requires { place + 4 ≤ length bytes.now }
    ensures value { result ≡ load 4 (λ k. slice_index bytes.now k) place }
    ensures in_range { (k : ℕ) → slice_index bytes.now k < 256 }
{
    u32::from_le_bytes([
        bytes[place],
        bytes[place + 1],
        bytes[place + 2],
        bytes[place + 3],
    ])
}

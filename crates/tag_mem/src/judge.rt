ghost use Rattle.std.specs.Prelude.{◌≡◌, ℕ, not, is_some, IfSome};
ghost use Rattle.std.specs.List.{All, AllPairs};
ghost use Rattle.mt_base.specs.Memory.{is_in_span, is_mapped, is_protected, every_byte, some_byte};
ghost use Rattle.tag_mem.specs.Answers.{read_answer, write_answer};
ghost use Rattle.tag_mem.specs.Regions.{extents_of, span_of, AreApart, IsWhole};

use crate::access::Access;
use crate::chunk::chunk_at;
use crate::region::{Region, Span64};

/// What comes of reading so many bytes from the address on.
pub fn judge_read(
    regions: &[Region],
    index: &[usize],
    guard: Span64,
    at: u64,
    count: usize,
) -> Access
    requires whole { All IsWhole (extents_of regions.now) }
    requires apart { AllPairs AreApart (extents_of regions.now) }
    ensures { result ≡ read_answer (extents_of regions.now) (span_of guard) at count }
{
    if meets_guard(guard, at, count) {
        return Access::Guard;
    }
    match survey(regions, index, at, count) {
        Some(_) => Access::Done,
        None => Access::Unmapped,
    }
}

/// What comes of writing so many bytes from the address on.
pub fn judge_write(
    regions: &[Region],
    index: &[usize],
    guard: Span64,
    at: u64,
    count: usize,
) -> Access
    requires whole { All IsWhole (extents_of regions.now) }
    requires apart { AllPairs AreApart (extents_of regions.now) }
    ensures { result ≡ write_answer (extents_of regions.now) (span_of guard) at count }
{
    if meets_guard(guard, at, count) {
        return Access::Guard;
    }
    match survey(regions, index, at, count) {
        Some(true) => Access::Done,
        Some(false) => Access::Protected,
        None => Access::Unmapped,
    }
}

/// Whether one of so many bytes from the address on is in the guard.
fn meets_guard(guard: Span64, at: u64, count: usize) -> bool
    ensures { result ≡ some_byte (is_in_span (span_of guard)) at count }
{
    if at >= guard.start {
        count > 0 && at - guard.start < guard.bytes
    } else {
        guard.bytes > 0 && guard.start - at < count as u64
    }
}

/// Whether each region that so many bytes from the address on meet is writable, or `None` where one of them is in no
/// region.
fn survey(regions: &[Region], index: &[usize], at: u64, count: usize) -> Option<bool>
    requires whole { All IsWhole (extents_of regions.now) }
    requires apart { AllPairs AreApart (extents_of regions.now) }
    ensures mapped { is_some result ≡ every_byte (is_mapped (extents_of regions.now)) at count }
    ensures writable { IfSome result (λ w. not w ≡ some_byte (is_protected (extents_of regions.now)) at count) }
{
    let mut writable = true;
    let mut done = 0;
    while done < count {
        let chunk = chunk_at(regions, index, at, done, count - done)?;
        writable &= regions[chunk.region].writable;
        done += chunk.count;
    }
    Some(writable)
}

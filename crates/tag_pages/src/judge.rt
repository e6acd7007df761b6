ghost use Rattle.std.specs.Prelude.{◌≡◌, not, is_some, IfSome};
ghost use Rattle.std.specs.List.{All};
ghost use Rattle.mt_base.specs.Memory.{is_in_span, is_mapped, is_protected, every_byte, some_byte};
ghost use Rattle.tag_mem.specs.Answers.{read_answer, write_answer};
ghost use Rattle.tag_mem.specs.Regions.{span_of};
ghost use Rattle.tag_pages.specs.Parts.{extents, IsLaidOut, IsPart};

use crate::bounds::Bounds;
use crate::part::{Part, part_behind};
use tag_mem::{Access, Span64};

/// What comes of reading so many bytes from the address on.
#[inline(never)]
pub fn judge_read(
    regions: &[Bounds],
    numbers: &[u64],
    parts: &[Part],
    guard: Span64,
    at: u64,
    count: usize,
) -> Access
    requires laid_out { IsLaidOut (extents regions.now) numbers.now }
    requires entered { All (IsPart (extents regions.now) numbers.now) parts.now }
    ensures { result ≡ read_answer (extents regions.now) (span_of guard) at count }
{
    if meets_guard(guard, at, count) {
        return Access::Guard;
    }
    match survey(regions, numbers, parts, at, count) {
        Some(_) => Access::Done,
        None => Access::Unmapped,
    }
}

/// What comes of writing so many bytes from the address on.
#[inline(never)]
pub fn judge_write(
    regions: &[Bounds],
    numbers: &[u64],
    parts: &[Part],
    guard: Span64,
    at: u64,
    count: usize,
) -> Access
    requires laid_out { IsLaidOut (extents regions.now) numbers.now }
    requires entered { All (IsPart (extents regions.now) numbers.now) parts.now }
    ensures { result ≡ write_answer (extents regions.now) (span_of guard) at count }
{
    if meets_guard(guard, at, count) {
        return Access::Guard;
    }
    match survey(regions, numbers, parts, at, count) {
        Some(true) => Access::Done,
        Some(false) => Access::Protected,
        None => Access::Unmapped,
    }
}

/// Whether one of so many bytes from the address on is in the guard.
fn meets_guard(guard: Span64, at: u64, count: usize) -> bool
    ensures { result ≡ some_byte (is_in_span (span_of guard)) at count }
{
    if at >= guard.start {
        count > 0 && at - guard.start < guard.bytes
    } else {
        guard.bytes > 0 && guard.start - at < count as u64
    }
}

/// Whether each region that so many bytes from the address on meet is writable, or `None` where one of them is in no
/// region.
fn survey(
    regions: &[Bounds],
    numbers: &[u64],
    parts: &[Part],
    at: u64,
    count: usize,
) -> Option<bool>
    requires laid_out { IsLaidOut (extents regions.now) numbers.now }
    requires entered { All (IsPart (extents regions.now) numbers.now) parts.now }
    ensures mapped { is_some result ≡ every_byte (is_mapped (extents regions.now)) at count }
    ensures writable { IfSome result (λ w. not w ≡ some_byte (is_protected (extents regions.now)) at count) }
{
    let mut writable = true;
    let mut done = 0;
    while done < count {
        let part = part_behind(regions, numbers, parts, at, done)?;
        writable &= part.writable;
        done += part.room(at + done as u64, count - done);
    }
    Some(writable)
}

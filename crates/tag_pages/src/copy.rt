ghost use Rattle.std.specs.Prelude.{◌≡◌, ◌≢◌, ℕ, ◌+◌, ◌<◌, ◌≤◌, true, length, slice_index};
ghost use Rattle.std.specs.List.{All};
ghost use Rattle.mt_base.specs.Memory.{is_mapped, every_byte, bytes_at, store_bytes};
ghost use Rattle.tag_mem.specs.Answers.{read_answer, write_answer};
ghost use Rattle.tag_mem.specs.Regions.{span_of, put_list, IsWellPlaced};
ghost use Rattle.tag_pages.specs.Pages.{byte_in_pages, tag_in_pages};
ghost use Rattle.tag_pages.specs.Parts.{extents, IsLaidOut, IsPart, IsPartAt};

use crate::bounds::Bounds;
use crate::judge::{judge_read, judge_write};
use crate::page::{PAGE_BYTES, Page, copy_bytes};
use crate::part::{Part, part_at, part_behind};
use tag_mem::{Access, Span64};

/// Reads bytes of one part, from the address on.
#[inline(always)]
fn part_bytes<'a>(
    regions: &[Bounds],
    numbers: &[u64],
    pages: &'a [Page],
    part: Part,
    at: u64,
    count: usize,
) -> &'a [u8]
    requires laid_out { IsLaidOut (extents regions.now) numbers.now }
    requires paged { length pages.now ≡ length numbers.now }
    requires part { IsPartAt (extents regions.now) numbers.now at part }
    requires within { at + count ≤ part.last + 1 }
    ensures len { length result.now ≡ count }
    ensures value { result.now ≡ bytes_at count (byte_in_pages (extents regions.now) numbers.now pages.now) at }
{
    pages[part.page].part((at % PAGE_BYTES as u64) as usize, count)
}

/// Replaces bytes of one part, from the address on.
#[inline(always)]
fn put_part(
    regions: &[Bounds],
    numbers: &[u64],
    pages: &mut [Page],
    part: Part,
    at: u64,
    source: &[u8],
)
    requires laid_out { IsLaidOut (extents regions.now) numbers.now }
    requires paged { length pages.old ≡ length numbers.now }
    requires part { IsPartAt (extents regions.now) numbers.now at part }
    requires within { at + length source.now ≤ part.last + 1 }
    ensures paged { length pages.new ≡ length numbers.now }
    ensures bytes { byte_in_pages (extents regions.now) numbers.now pages.new
        ≡ store_bytes (byte_in_pages (extents regions.now) numbers.now pages.old) at source.now }
    ensures tags { tag_in_pages (extents regions.now) numbers.now pages.new ≡ tag_in_pages (extents regions.now) numbers.now pages.old }
{
    pages[part.page].put((at % PAGE_BYTES as u64) as usize, source);
}

/// Replaces the bytes of a slice from the place `at` on.
fn put_bytes(bytes: &mut [u8], at: usize, source: &[u8])
    requires { at + length source.now ≤ length bytes.old }
    ensures { bytes.new ≡ put_list bytes.old at source.now }
{
    bytes[at..at + source.len()].copy_from_slice(source);
}

/// Reads the bytes from the address on, each of which is in a region.
#[inline(never)]
fn gather(
    regions: &[Bounds],
    numbers: &[u64],
    parts: &[Part],
    pages: &[Page],
    at: u64,
    out: &mut [u8],
)
    requires laid_out { IsLaidOut (extents regions.now) numbers.now }
    requires entered { All (IsPart (extents regions.now) numbers.now) parts.now }
    requires paged { length pages.now ≡ length numbers.now }
    requires mapped { every_byte (is_mapped (extents regions.now)) at (length out.old) ≡ true }
    ensures { out.new ≡ bytes_at (length out.old) (byte_in_pages (extents regions.now) numbers.now pages.now) at }
{
    let mut done = 0;
    while done < out.len() {
        let Some(part) = part_behind(regions, numbers, parts, at, done) else {
            unreachable!();
        };
        let address = at + done as u64;
        let count = part.room(address, out.len() - done);
        put_bytes(
            out,
            done,
            part_bytes(regions, numbers, pages, part, address, count),
        );
        done += count;
    }
}

/// Writes the bytes from the address on, each of which is in a region.
#[inline(never)]
pub fn scatter(
    regions: &[Bounds],
    numbers: &[u64],
    parts: &[Part],
    pages: &mut [Page],
    at: u64,
    bytes: &[u8],
)
    requires laid_out { IsLaidOut (extents regions.now) numbers.now }
    requires entered { All (IsPart (extents regions.now) numbers.now) parts.now }
    requires paged { length pages.old ≡ length numbers.now }
    requires mapped { every_byte (is_mapped (extents regions.now)) at (length bytes.now) ≡ true }
    ensures paged { length pages.new ≡ length numbers.now }
    ensures bytes { byte_in_pages (extents regions.now) numbers.now pages.new
        ≡ store_bytes (byte_in_pages (extents regions.now) numbers.now pages.old) at bytes.now }
    ensures tags { tag_in_pages (extents regions.now) numbers.now pages.new ≡ tag_in_pages (extents regions.now) numbers.now pages.old }
    ensures in_range { (k : ℕ) → slice_index bytes.now k < 256 }
{
    let mut done = 0;
    while done < bytes.len() {
        let Some(part) = part_behind(regions, numbers, parts, at, done) else {
            unreachable!();
        };
        let address = at + done as u64;
        let count = part.room(address, bytes.len() - done);
        put_part(
            regions,
            numbers,
            pages,
            part,
            address,
            &bytes[done..done + count],
        );
        done += count;
    }
}

/// Reads the bytes from the address on, unless the guard or an address in no region is among theirs.
#[inline(always)]
pub fn read_bytes(
    regions: &[Bounds],
    numbers: &[u64],
    parts: &[Part],
    pages: &[Page],
    guard: Span64,
    at: u64,
    out: &mut [u8],
) -> Access
    requires placed { IsWellPlaced (extents regions.now) (span_of guard) }
    requires laid_out { IsLaidOut (extents regions.now) numbers.now }
    requires entered { All (IsPart (extents regions.now) numbers.now) parts.now }
    requires paged { length pages.now ≡ length numbers.now }
    ensures answer { result ≡ read_answer (extents regions.now) (span_of guard) at (length out.old) }
    ensures done { result ≡ Access.Done → out.new ≡ bytes_at (length out.old) (byte_in_pages (extents regions.now) numbers.now pages.now) at }
    ensures refused { result ≢ Access.Done → out.new ≡ out.old }
{
    if let Some(part) = part_at(regions, numbers, parts, at)
        && part.room(at, out.len()) == out.len()
    {
        let count = out.len();
        copy_bytes(out, part_bytes(regions, numbers, pages, part, at, count));
        return Access::Done;
    }
    let answer = judge_read(regions, numbers, parts, guard, at, out.len());
    if let Access::Done = answer {
        gather(regions, numbers, parts, pages, at, out);
    }
    answer
}

/// Writes the bytes from the address on, unless the guard, an address in no region or a region that is not writable is
/// in the way.
#[inline(always)]
pub fn write_bytes(
    regions: &[Bounds],
    numbers: &[u64],
    parts: &[Part],
    pages: &mut [Page],
    guard: Span64,
    at: u64,
    bytes: &[u8],
) -> Access
    requires placed { IsWellPlaced (extents regions.now) (span_of guard) }
    requires laid_out { IsLaidOut (extents regions.now) numbers.now }
    requires entered { All (IsPart (extents regions.now) numbers.now) parts.now }
    requires paged { length pages.old ≡ length numbers.now }
    ensures paged { length pages.new ≡ length numbers.now }
    ensures answer { result ≡ write_answer (extents regions.now) (span_of guard) at (length bytes.now) }
    ensures done { result ≡ Access.Done → byte_in_pages (extents regions.now) numbers.now pages.new
        ≡ store_bytes (byte_in_pages (extents regions.now) numbers.now pages.old) at bytes.now }
    ensures refused { result ≢ Access.Done → byte_in_pages (extents regions.now) numbers.now pages.new
        ≡ byte_in_pages (extents regions.now) numbers.now pages.old }
    ensures tags { tag_in_pages (extents regions.now) numbers.now pages.new ≡ tag_in_pages (extents regions.now) numbers.now pages.old }
{
    if let Some(part) = part_at(regions, numbers, parts, at)
        && part.writable
        && part.room(at, bytes.len()) == bytes.len()
    {
        put_part(regions, numbers, pages, part, at, bytes);
        return Access::Done;
    }
    let answer = judge_write(regions, numbers, parts, guard, at, bytes.len());
    if let Access::Done = answer {
        scatter(regions, numbers, parts, pages, at, bytes);
    }
    answer
}

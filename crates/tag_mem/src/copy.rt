ghost use Rattle.std.specs.Prelude.{◌≡◌, ◌≢◌, ℕ, ◌+◌, ◌<◌, ◌≤◌, true, length, slice_index_or};
ghost use Rattle.mt_base.specs.Memory.{is_mapped, every_byte, bytes_at, store_bytes};
ghost use Rattle.tag_mem.specs.Regions.{extents_of, byte_in, AreApart, IsWhole, IsChunk, IsWellPlaced, span_of};
ghost use Rattle.tag_mem.specs.Answers.{read_answer, write_answer};
ghost use Rattle.std.specs.List.{All, AllPairs};
ghost use Rattle.tag_mem.specs.declared.region.Region.{Region};

use crate::access::Access;
use crate::chunk::{Chunk, chunk_at, chunk_bytes};
use crate::judge::{judge_read, judge_write};
use crate::region::{Region, Span64, put_bytes};

/// Replaces the bytes of the chunk.
fn put_chunk(regions: &mut [Region], chunk: Chunk, source: &[u8])
    requires apart { AllPairs AreApart (extents_of regions.old) }
    requires in_range { chunk.region < length regions.old }
    requires within { (d : Region) → chunk.offset + chunk.count ≤ length (slice_index_or regions.old chunk.region d).bytes.items }
    requires len { length source.now ≡ chunk.count }
    ensures extents { extents_of regions.new ≡ extents_of regions.old }
    ensures bytes { (at most : ℕ) → IsChunk regions.old at most chunk →
        byte_in regions.new ≡ store_bytes (byte_in regions.old) at source.now }
{
    regions[chunk.region].put(chunk.offset, source);
}

/// Reads the bytes from the address on, each of which is in a region.
pub fn gather(regions: &[Region], index: &[usize], at: u64, out: &mut [u8])
    requires whole { All IsWhole (extents_of regions.now) }
    requires apart { AllPairs AreApart (extents_of regions.now) }
    requires mapped { every_byte (is_mapped (extents_of regions.now)) at (length out.old) ≡ true }
    ensures { out.new ≡ bytes_at (length out.old) (byte_in regions.now) at }
{
    let mut done = 0;
    while done < out.len() {
        let Some(chunk) = chunk_at(regions, index, at, done, out.len() - done) else {
            unreachable!();
        };
        put_bytes(out, done, chunk_bytes(regions, chunk));
        done += chunk.count;
    }
}

/// Writes the bytes from the address on, each of which is in a region.
pub fn scatter(regions: &mut [Region], index: &[usize], at: u64, bytes: &[u8])
    requires whole { All IsWhole (extents_of regions.old) }
    requires apart { AllPairs AreApart (extents_of regions.old) }
    requires mapped { every_byte (is_mapped (extents_of regions.old)) at (length bytes.now) ≡ true }
    ensures extents { extents_of regions.new ≡ extents_of regions.old }
    ensures bytes { byte_in regions.new ≡ store_bytes (byte_in regions.old) at bytes.now }
{
    let mut done = 0;
    while done < bytes.len() {
        let Some(chunk) = chunk_at(regions, index, at, done, bytes.len() - done) else {
            unreachable!();
        };
        put_chunk(regions, chunk, &bytes[done..done + chunk.count]);
        done += chunk.count;
    }
}

/// Reads the bytes from the address on, unless the guard or an address in no region is among theirs.
pub fn read_bytes(
    regions: &[Region],
    index: &[usize],
    guard: Span64,
    at: u64,
    out: &mut [u8],
) -> Access
    requires { IsWellPlaced (extents_of regions.now) (span_of guard) }
    ensures answer { result ≡ read_answer (extents_of regions.now) (span_of guard) at (length out.old) }
    ensures done { result ≡ Access.Done → out.new ≡ bytes_at (length out.old) (byte_in regions.now) at }
    ensures refused { result ≢ Access.Done → out.new ≡ out.old }
{
    if let Some(chunk) = chunk_at(regions, index, at, 0, out.len())
        && chunk.count == out.len()
    {
        out.copy_from_slice(chunk_bytes(regions, chunk));
        return Access::Done;
    }
    let answer = judge_read(regions, index, guard, at, out.len());
    if let Access::Done = answer {
        gather(regions, index, at, out);
    }
    answer
}

/// Writes the bytes from the address on, unless the guard, an address in no region or a region that is not writable is
/// in the way.
pub fn write_bytes(
    regions: &mut Vec<Region>,
    index: &[usize],
    guard: Span64,
    at: u64,
    bytes: &[u8],
) -> Access
    requires { IsWellPlaced (extents_of regions.old.items) (span_of guard) }
    ensures answer { result ≡ write_answer (extents_of regions.old.items) (span_of guard) at (length bytes.now) }
    ensures done { result ≡ Access.Done → byte_in regions.new.items ≡ store_bytes (byte_in regions.old.items) at bytes.now }
    ensures refused { result ≢ Access.Done → byte_in regions.new.items ≡ byte_in regions.old.items }
    ensures extents { extents_of regions.new.items ≡ extents_of regions.old.items }
{
    if let Some(chunk) = chunk_at(regions, index, at, 0, bytes.len())
        && chunk.count == bytes.len()
        && regions[chunk.region].writable
    {
        put_chunk(regions, chunk, bytes);
        return Access::Done;
    }
    let answer = judge_write(regions, index, guard, at, bytes.len());
    if let Access::Done = answer {
        scatter(regions, index, at, bytes);
    }
    answer
}

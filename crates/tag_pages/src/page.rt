ghost use Rattle.std.specs.Prelude.{◌≡◌, ◌≢◌, ℕ, ◌+◌, ◌*◌, ◌/◌, ◌%◌, ◌<◌, ◌≤◌, length, slice_index, take, drop, not};
ghost use Rattle.mt_base.specs.Memory.{load};
ghost use Rattle.tag_mem.specs.Regions.{put_list};
ghost use Rattle.tag_pages.specs.Pages.{half_of, page_tag};

use mt_base::Tag;

/// The number of bytes of a page.
pub const PAGE_BYTES: usize = 4096;

/// How many bytes hold the tags of the 256 granules of a page.
const TAG_BYTES: usize = 128;

/// The bytes of 4,096 addresses from a multiple of 4,096 on, and the tags of their granules.
#[derive(Clone, Copy)]
pub struct Page {
    /// The bytes.
    pub bytes: [u8; PAGE_BYTES],
    /// The tags of two granules a byte: that of an even granule is the lower half.
    pub tags: [u8; TAG_BYTES],
}

impl Page {
    /// A page of zeros.
    pub(crate) fn blank() -> Page
        ensures bytes { (k : ℕ) → slice_index result.bytes k ≡ 0 }
        ensures tags { (k : ℕ) → slice_index result.tags k ≡ 0 }
    {
        Page {
            bytes: [0; PAGE_BYTES],
            tags: [0; TAG_BYTES],
        }
    }

    /// Replaces the bytes from the place `offset` on.
    pub(crate) fn put(&mut self, offset: usize, source: &[u8])
        requires { offset + length source.now ≤ 4096 }
        ensures len { length self.old.bytes ≡ 4096 }
        ensures bytes { self.new.bytes ≡ put_list self.old.bytes offset source.now }
        ensures tags { self.new.tags ≡ self.old.tags }
    {
        copy_bytes(&mut self.bytes[offset..offset + source.len()], source);
    }

    /// So many bytes from the place `offset` on.
    pub(crate) fn part(&self, offset: usize, count: usize) -> &[u8]
        requires { offset + count ≤ 4096 }
        ensures len { length result.now ≡ count }
        ensures value { result.now ≡ take count (drop offset self.now.bytes) }
        ensures in_range { (k : ℕ) → slice_index self.now.bytes k < 256 }
    {
        part_of(&self.bytes, offset, count)
    }

    /// The number of four bytes from the place `offset` on, the lowest first.
    pub(crate) fn word(&self, offset: usize) -> u32
        requires { offset + 4 ≤ 4096 }
        ensures value { result ≡ load 4 (λ k. slice_index self.now.bytes k) offset }
        ensures in_range { (k : ℕ) → slice_index self.now.bytes k < 256 }
    {
        word_at(&self.bytes, offset)
    }

    /// The tag of a granule of the page.
    pub(crate) fn tag(&self, granule: usize) -> Tag
        requires { granule < 256 }
        ensures { result ≡ page_tag self.now granule }
    {
        tag_in(self.tags[granule / 2], granule % 2 == 0)
    }

    /// Sets the tag of a granule of the page.
    pub(crate) fn set_tag(&mut self, granule: usize, tag: Tag)
        requires { granule < 256 }
        ensures bytes { self.new.bytes ≡ self.old.bytes }
        ensures same { page_tag self.new granule ≡ tag }
        ensures others { (k : ℕ) → k ≢ granule → page_tag self.new k ≡ page_tag self.old k }
    {
        let byte = self.tags[granule / 2];
        self.tags[granule / 2] = with_tag(byte, granule % 2 == 0, tag);
    }
}

/// Copies bytes. The lengths of the accesses of instructions have a copy of their own, which needs no loop.
#[inline(always)]
pub(crate) fn copy_bytes(out: &mut [u8], from: &[u8])
    requires { length from.now ≡ length out.old }
    ensures { out.new ≡ from.now }
{
    if out.len() == 8 {
        out.copy_from_slice(from);
    } else if out.len() == 4 {
        out.copy_from_slice(from);
    } else if out.len() == 1 {
        out.copy_from_slice(from);
    } else if out.len() == 16 {
        out.copy_from_slice(from);
    } else {
        out.copy_from_slice(from);
    }
}

/// So many bytes from the place `from` on.
fn part_of(bytes: &[u8], from: usize, count: usize) -> &[u8]
    requires { from + count ≤ length bytes.now }
    ensures len { length result.now ≡ count }
    ensures value { result.now ≡ take count (drop from bytes.now) }
    ensures in_range { (k : ℕ) → slice_index bytes.now k < 256 }
{
    &bytes[from..from + count]
}

/// The number of four bytes from the place on, the lowest first.
fn word_at(bytes: &[u8], place: usize) -> u32
    requires { place + 4 ≤ length bytes.now }
    ensures value { result ≡ load 4 (λ k. slice_index bytes.now k) place }
    ensures in_range { (k : ℕ) → slice_index bytes.now k < 256 }
{
    u32::from_le_bytes([
        bytes[place],
        bytes[place + 1],
        bytes[place + 2],
        bytes[place + 3],
    ])
}

/// The tag in the lower or the upper half of a byte.
fn tag_in(byte: u8, lower: bool) -> Tag
    ensures { result ≡ half_of byte lower }
{
    let half = if lower { byte % 16 } else { byte / 16 };
    match Tag::new(half) {
        Some(tag) => tag,
        None => unreachable!(),
    }
}

/// The byte with a tag in its lower or its upper half.
fn with_tag(byte: u8, lower: bool, tag: Tag) -> u8
    ensures same { half_of result lower ≡ tag }
    ensures other { half_of result (not lower) ≡ half_of byte (not lower) }
{
    if lower {
        byte / 16 * 16 + tag.value()
    } else {
        tag.value() * 16 + byte % 16
    }
}

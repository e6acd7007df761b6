ghost use Rattle.std.specs.Prelude.{◌≡◌, ◌≢◌, ℕ, ◌<◌, ◌↔◌, List, length, IsSome, IfSome, IsTrue};
ghost use Rattle.mt_base.specs.Granules.{granule_of};
ghost use Rattle.mt_base.specs.Memory.{Span, Extent, is_mapped, load, bytes_at, store_bytes, store_tag};
ghost use Rattle.tag_mem.specs.Answers.{read_answer, write_answer, set_tag_answer, is_fetchable};
ghost use Rattle.tag_mem.specs.Regions.{IsWellPlaced};

use mt_base::Tag;

/// What came of an access. Where several hold, the first of `Guard`, `Unmapped` and `Protected` is answered.
#[derive(Clone, Copy)]
pub enum Access {
    /// It was done.
    Done,
    /// One of its bytes is in no region.
    Unmapped,
    /// One of its bytes is in the guard.
    Guard,
    /// It writes, and meets a region that is not writable.
    Protected,
}

/// Memory with a tag for each granule of 16 bytes.
///
/// What it holds is a byte for each address and a tag for each granule. Regions, their rights and
/// the guard never change, and no call takes memory.
pub trait TagMemory {
    // the byte at an address, and the tag of the granule with a number
    ghost byte: { Self → ℕ → ℕ };

    ghost tags: { Self → ℕ → ℕ };

    // the regions with their rights, and the guard
    ghost regions: { Self → List Extent };

    ghost guard: { Self → Span };

    /// Reads the bytes from the address on into `out`, which stays as it is unless the answer is `Done`.
    fn read(&self, at: u64, out: &mut [u8]) -> Access
        ensures answer { result ≡ read_answer (regions self.now) (guard self.now) at (length out.old) }
        ensures done { result ≡ Access.Done → out.new ≡ bytes_at (length out.old) (byte self.now) at }
        ensures refused { result ≢ Access.Done → out.new ≡ out.old };

    /// Writes the bytes from the address on. Unless the answer is `Done`, nothing changes.
    fn write(&mut self, at: u64, bytes: &[u8]) -> Access
        ensures answer { result ≡ write_answer (regions self.old) (guard self.old) at (length bytes.now) }
        ensures done { result ≡ Access.Done → byte self.new ≡ store_bytes (byte self.old) at bytes.now }
        ensures refused { result ≢ Access.Done → byte self.new ≡ byte self.old }
        ensures same_tags { tags self.new ≡ tags self.old }
        ensures same_regions { regions self.new ≡ regions self.old }
        ensures same_guard { guard self.new ≡ guard self.old };

    /// The tag of the granule that the address is in, or `None` where no region holds the address.
    fn tag(&self, at: u64) -> Option<Tag>
        ensures there { IsSome result ↔ IsTrue (is_mapped (regions self.now) at) }
        ensures value { IfSome result (λ t. t ≡ tags self.now (granule_of at)) };

    /// Sets the tag of the granule that the address is in. Unless the answer is `Done`, nothing changes.
    fn set_tag(&mut self, at: u64, tag: Tag) -> Access
        ensures answer { result ≡ set_tag_answer (regions self.old) (guard self.old) at }
        ensures done { result ≡ Access.Done → tags self.new ≡ store_tag (tags self.old) at tag }
        ensures refused { result ≢ Access.Done → tags self.new ≡ tags self.old }
        ensures same_bytes { byte self.new ≡ byte self.old }
        ensures same_regions { regions self.new ≡ regions self.old }
        ensures same_guard { guard self.new ≡ guard self.old };

    /// The instruction word at the address, its lowest byte first, or `None` where the address is no multiple of 4 or one of
    /// the four bytes is in no executable region.
    fn fetch(&self, at: u64) -> Option<u32>
        ensures there { IsSome result ↔ IsTrue (is_fetchable (regions self.now) at) }
        ensures value { IfSome result (λ w. w ≡ load 4 (byte self.now) at) };

    // a byte is below 256
    ghost byte_below: { (m : Self) (at : ℕ) → byte m at < 256 };

    // a tag is below 16
    ghost tags_below: { (m : Self) (granule : ℕ) → tags m granule < 16 };

    // regions and guard have whole granules, no region goes past the last address of 64 bits, and no address is in two of
    // them
    ghost well_placed: { (m : Self) → IsWellPlaced (regions m) (guard m) };
}

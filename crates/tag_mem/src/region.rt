ghost use Rattle.std.specs.Prelude.{◌≡◌, ◌+◌, ◌≤◌, ◌++◌, length, take, drop};
ghost use Rattle.mt_base.specs.Memory.{is_in_extent};

/// A part of memory to start from: its bytes, from the address `start` on, and what may be done there besides reading.
#[derive(Drop)]
pub struct Region {
    /// The address of the first byte, a multiple of 16.
    pub start: u64,
    /// The bytes; their number is a multiple of 16.
    pub bytes: Vec<u8>,
    /// Whether bytes and tags may be written.
    pub writable: bool,
    /// Whether instructions may be fetched.
    pub executable: bool,
}

impl Region {
    ghost use Rattle.tag_mem.specs.Regions.{extent_of, put_list};

    /// Whether the address is one of the region's.
    pub(crate) fn holds(&self, at: u64) -> bool
        ensures { result ≡ is_in_extent (extent_of self.now) at }
    {
        at >= self.start && at - self.start < self.bytes.len() as u64
    }

    /// Replaces the bytes from the place `offset` on.
    pub(crate) fn put(&mut self, offset: usize, source: &[u8])
        requires { offset + length source.now ≤ length self.old.bytes.items }
        ensures extent { extent_of self.new ≡ extent_of self.old }
        ensures bytes { self.new.bytes.items ≡ put_list self.old.bytes.items offset source.now }
    {
        put_bytes(&mut self.bytes, offset, source);
    }
}

/// So many addresses from `start` on.
#[derive(Clone, Copy)]
pub struct Span64 {
    /// The first address.
    pub start: u64,
    /// How many addresses it has.
    pub bytes: u64,
}

/// Replaces the bytes from the place `at` on.
pub fn put_bytes(bytes: &mut [u8], at: usize, source: &[u8])
    requires { at + length source.now ≤ length bytes.old }
    ensures { bytes.new ≡ take at bytes.old ++ (source.now ++ drop (at + length source.now) bytes.old) }
{
    bytes[at..at + source.len()].copy_from_slice(source);
}

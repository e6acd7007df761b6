ghost use Rattle.std.specs.Prelude.{◌≡◌, IfOk};
ghost use Rattle.mt_base.specs.Memory.{is_in_extent};
ghost use Rattle.tag_mem.specs.Regions.{extent_of, extents_of};
ghost use Rattle.tag_pages.specs.Parts.{extent, extents};

use std::alloc::{AllocError, Global};
use tag_mem::Region;

/// Where a region lies, and what may be done there besides reading.
#[derive(Clone, Copy)]
pub struct Bounds {
    /// The address of the first byte.
    pub start: u64,
    /// How many bytes it has.
    pub bytes: u64,
    /// Whether bytes and tags may be written.
    pub writable: bool,
    /// Whether instructions may be fetched.
    pub executable: bool,
}

impl Bounds {
    /// The bounds and rights of a region.
    fn of(region: &Region) -> Bounds
        ensures { extent result ≡ extent_of region.now }
    {
        Bounds {
            start: region.start,
            bytes: region.bytes.len() as u64,
            writable: region.writable,
            executable: region.executable,
        }
    }

    /// Whether the address is one of the region's.
    pub fn holds(&self, at: u64) -> bool
        ensures { result ≡ is_in_extent (extent self.now) at }
    {
        at >= self.start && at - self.start < self.bytes
    }
}

/// The bounds and rights of regions.
pub fn bounds_of(alloc: Global, regions: &[Region]) -> Result<Vec<Bounds>, AllocError>
    ensures { IfOk result (λ bounds. extents bounds.items ≡ extents_of regions.now) }
{
    let mut bounds = Vec::new(alloc);
    for region in regions {
        bounds.push(Bounds::of(region))?;
    }
    Ok(bounds)
}

use crate::region::Region;
use std::alloc::{AllocError, Global};

/// How many entries the index has.
const ENTRIES: u64 = 4096;

/// The bits of an address within a page of 4,096 bytes.
const PAGE_BITS: u32 = 12;

/// For each remainder that the number of a page leaves by 4,096 the place of a region with bytes in such a page.
///
/// A look-up begins here and tests what it finds, so no contract speaks of it.
pub fn index_of(alloc: Global, regions: &[Region]) -> Result<Vec<usize>, AllocError> {
    let mut index = vec![in alloc; regions.len(); ENTRIES as usize]?;
    for (place, region) in regions.iter().enumerate() {
        if !region.bytes.is_empty() {
            let last = region.start.wrapping_add(region.bytes.len() as u64 - 1);
            enter(&mut index, regions.len(), region.start, last, place);
        }
    }
    Ok(index)
}

/// Enters the place for the pages from one address to another, where the entry is `free`.
fn enter(index: &mut Vec<usize>, free: usize, first: u64, last: u64, place: usize) {
    let pages = (last >> PAGE_BITS).saturating_sub(first >> PAGE_BITS);
    for page in 0..pages.min(ENTRIES - 1) + 1 {
        let entry = entry_of(first.wrapping_add(page << PAGE_BITS));
        if entry < index.len() && index[entry] == free {
            index[entry] = place;
        }
    }
}

/// The entry for the page of an address.
fn entry_of(at: u64) -> usize {
    ((at >> PAGE_BITS) % ENTRIES) as usize
}

/// The place that is entered for the page of an address.
pub fn first_guess(index: &[usize], at: u64) -> Option<usize> {
    index.get(entry_of(at)).copied()
}

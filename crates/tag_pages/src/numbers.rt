ghost use Rattle.std.specs.Prelude.{◌≡◌, ℕ, ◌/◌, true, IfOk, OnOk, OnErr};
ghost use Rattle.std.specs.List.{All};
ghost use Rattle.std.specs.List.Sorted.{IsStrictlyIncreasing};
ghost use Rattle.mt_base.specs.Memory.{is_in_extent, is_mapped};
ghost use Rattle.tag_mem.specs.Regions.{IsWhole};
ghost use Rattle.tag_pages.specs.Parts.{extent, extents, has_number};

use crate::bounds::Bounds;
use crate::page::PAGE_BYTES;
use std::alloc::{AllocError, Global};

/// The numbers of the pages in which regions have addresses, each once, from the least on.
pub fn numbers_of(alloc: Global, regions: &[Bounds]) -> Result<Vec<u64>, AllocError>
    requires whole { All IsWhole (extents regions.now) }
    ensures increasing { IfOk result (λ numbers. IsStrictlyIncreasing numbers.items) }
    ensures covers { IfOk result (λ numbers. (at : ℕ) → is_mapped (extents regions.now) at ≡ true → has_number numbers.items (at / 4096) ≡ true) }
{
    let mut numbers = Vec::new(alloc);
    for region in regions {
        add_numbers(&mut numbers, *region)?;
    }
    numbers.sort_unstable();
    numbers.dedup();
    Ok(numbers)
}

/// Adds the numbers of the pages in which a region has addresses.
fn add_numbers(numbers: &mut Vec<u64>, region: Bounds) -> Result<(), AllocError>
    requires whole { IsWhole (extent region) }
    ensures kept { OnOk result ((n : ℕ) → has_number numbers.old.items n ≡ true → has_number numbers.new.items n ≡ true) }
    ensures added { OnOk result ((at : ℕ) → is_in_extent (extent region) at ≡ true → has_number numbers.new.items (at / 4096) ≡ true) }
{
    if region.bytes > 0 {
        let first = region.start / PAGE_BYTES as u64;
        let last = (region.start + (region.bytes - 1)) / PAGE_BYTES as u64;
        for number in first..last + 1 {
            numbers.push(number)?;
        }
    }
    Ok(())
}

// Where a row's words and its data stand.
ghost use Rattle.std.specs.Prelude.{◌≡◌, IfOk, Bool, true, false};
ghost use Rattle.tag_mem.specs.Regions.{extent_of};

use mt_base::Tag;
use std::alloc::{AllocError, Global};
use tag_mem::{FlatMemory, Region, Span64, TagMemory};

/// Where the code stands that sets registers up, before the row's words, and that which puts out, after them: 256 words, 256
/// words and 512 words.
pub const SETUP: u64 = 0x0FFF_FC00;

pub const CODE: u64 = 0x1000_0000;

pub const AFTER: u64 = 0x1000_0400;

/// Where the data stands, eight doublewords in four granules, in two regions of two granules. A guard of two granules
/// follows.
pub const DATA: u64 = 0x2000_0000;

const MEMORY: [u64; 8] = [
    0x7766_5544_B3A2_9180,
    0x8F1E_2D3C_4B5A_6978,
    0x60E1_D2C3_B4A5_96F7,
    0xF1E2_D3C4_35A6_7788,
    0x7766_5544_B3A2_9180,
    0x8F1E_2D3C_4B5A_6978,
    0x60E1_D2C3_B4A5_96F7,
    0xF1E2_D3C4_35A6_7788,
];

/// A region of as many bytes of a value, which may be written and executed as is said.
fn region(
    alloc: Global,
    start: u64,
    count: usize,
    writable: bool,
    executable: bool,
) -> Result<Region, AllocError>
    ensures { IfOk result (λ r. extent_of r ≡ record { start = start; bytes = count; writable = writable; executable = executable }) }
{
    Ok(Region {
        start,
        bytes: vec![in alloc; 0x1f; count]?,
        writable,
        executable,
    })
}

/// Code that is writable too; the data in two regions; the guard; a granule of code that is not writable; and
/// a region of no bytes. What is not said otherwise holds 0x1F and has the tag 0.
fn empty_memory(alloc: Global) -> Result<FlatMemory, AllocError> {
    let code = region(alloc, 0x0FFF_FC00, 0x1000, true, true)?;
    let lower = region(alloc, 0x2000_0000, 32, true, false)?;
    let upper = region(alloc, 0x2000_0020, 32, true, false)?;
    let fixed = region(alloc, 0x3000_0000, 16, false, true)?;
    let none = region(alloc, 0x4000_0000, 0, true, false)?;
    let guard = Span64 {
        start: 0x2000_0040,
        bytes: 32,
    };
    FlatMemory::new(
        alloc,
        vec![in alloc; upper, code, fixed, none, lower]?,
        guard,
    )
}

/// The memory, with its data, and with these tags in its four granules; those that are left out are 0.
pub fn memory(alloc: Global, tags: &[Tag]) -> Result<FlatMemory, AllocError> {
    let mut memory = empty_memory(alloc)?;
    let mut at = DATA;
    for doubleword in MEMORY {
        memory.write(at, &doubleword.to_le_bytes());
        at = at.wrapping_add(8);
    }
    at = DATA;
    for tag in tags {
        memory.set_tag(at, *tag);
        at = at.wrapping_add(16);
    }
    Ok(memory)
}

/// Writes words from an address on.
pub fn lay(memory: &mut FlatMemory, start: u64, words: &[u32]) {
    let mut at = start;
    for word in words {
        memory.write(at, &word.to_le_bytes());
        at = at.wrapping_add(4);
    }
}

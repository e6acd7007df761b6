ghost use Rattle.std.specs.Prelude.{◌≡◌, ◌<◌, ◌≤◌, ◌^◌, IfOk, OnOk};
ghost use Rattle.memtag_desc.specs.Numbers.{IsNumber};
ghost use Rattle.memtag_desc.specs.Descriptors.{IsDescriptor, Describes, HaveDescription};
ghost use Rattle.memtag_desc.specs.Laws.Adding.{Adds};

use crate::interval::Interval;
use std::alloc::{AllocError, Global};

/// The bytes that describe the intervals. These are whole granules of 16 bytes, none is empty, each starts at the end
/// of the one before or behind it, and all end at 2^48 at most.
pub fn encode(alloc: Global, intervals: &[Interval]) -> Result<Vec<u8>, AllocError>
    requires { HaveDescription 0 intervals.now }
    ensures { IfOk result (λ v. Describes intervals.now v.items) }
{
    let mut out = Vec::new(alloc);
    let mut end = 0;
    for interval in intervals {
        put_descriptor(&mut out, (interval.start - end) / 16, interval.bytes / 16)?;
        end = interval.start + interval.bytes;
    }
    Ok(out)
}

// Appends the descriptor of a distance and a size in granules.
fn put_descriptor(out: &mut Vec<u8>, distance: u64, size: u64) -> Result<(), AllocError>
    requires distance_low { distance < 2 ^ 48 }
    requires size_low { size < 2 ^ 48 }
    requires some { 1 ≤ size }
    ensures { OnOk result (Adds (IsDescriptor distance size) out.old.items out.new.items) }
{
    if size <= 7 {
        put_number(out, 8 * distance + size)
    } else {
        put_number(out, 8 * distance)?;
        put_number(out, size - 1)
    }
}

// Appends the shortest spelling of a number.
fn put_number(out: &mut Vec<u8>, value: u64) -> Result<(), AllocError>
    requires { value < 2 ^ 56 }
    ensures { OnOk result (Adds (IsNumber value) out.old.items out.new.items) }
{
    let mut rest = value;
    while rest >= 128 {
        out.push((rest % 128 + 128) as u8)?;
        rest /= 128;
    }
    out.push(rest as u8)?;
    Ok(())
}

ghost use Rattle.std.specs.Prelude.{◌≡◌, ◌+◌, ◌<◌, ◌≤◌, ◌^◌, length, IfOk};
ghost use Rattle.memtag_desc.specs.Descriptors.{end_of, address_limit};
ghost use Rattle.memtag_desc.specs.Laws.Reading.{descriptor_at, judged};

use crate::interval::Interval;
use crate::number::number_at;
use crate::refusal::DescRefusal;

// The addresses below which an interval ends, or where it ends.
const ADDRESS_LIMIT: u64 = 1 << 48;

// A descriptor, as it was read: its interval, and how many bytes it takes.
#[derive(Clone, Copy)]
pub(crate) struct Descriptor {
    pub(crate) interval: Interval,
    pub(crate) bytes: u64,
}

// The interval of a distance from an address and of a size, both in granules.
#[tactic(auto, unfolding(crate::specs::Laws::Reading::judged))]
fn judged(
    from: u64,
    place: u64,
    distance: u64,
    size: u64,
    bytes: u64,
) -> Result<Descriptor, DescRefusal>
    requires from_low { from ≤ address_limit }
    requires distance_low { distance < 2 ^ 56 }
    requires size_low { size ≤ 2 ^ 56 }
    ensures is { result ≡ judged from place distance size bytes }
    ensures bytes { IfOk result (λ d. d.bytes ≡ bytes) }
    ensures within { IfOk result (λ d. end_of d.interval ≤ address_limit) }
{
    let interval = Interval {
        start: from + 16 * distance,
        bytes: 16 * size,
    };
    if ADDRESS_LIMIT < interval.start + interval.bytes {
        return Err(DescRefusal::TooFar { at: place });
    }
    Ok(Descriptor { interval, bytes })
}

// The descriptor with which the rest of the bytes begins, for an interval behind the address `from`. The rest stands
// at `place`, and there are `total` bytes in all.
pub(crate) fn descriptor_at(
    from: u64,
    place: u64,
    total: u64,
    rest: &[u8],
) -> Result<Descriptor, DescRefusal>
    requires from_low { from ≤ address_limit }
    requires all { place + length rest.now ≡ total }
    ensures is { result ≡ descriptor_at from place total rest.now }
    ensures bytes { IfOk result (λ d. d.bytes ≤ length rest.now) }
    ensures within { IfOk result (λ d. end_of d.interval ≤ address_limit) }
{
    let first = number_at(place, total, rest)?;
    let size = first.value % 8;
    if size > 0 {
        return judged(from, place, first.value / 8, size, first.bytes);
    }
    let after = place + first.bytes;
    let second = number_at(after, total, &rest[first.bytes as usize..])?;
    if second.value < 7 {
        return Err(DescRefusal::LongForm { at: after });
    }
    judged(
        from,
        place,
        first.value / 8,
        second.value + 1,
        first.bytes + second.bytes,
    )
}

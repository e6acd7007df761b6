ghost use Rattle.std.specs.Prelude.{◌≡◌, ◌+◌, ◌*◌, ◌%◌, ◌<◌, ◌≤◌, ◌^◌, List, map, length, IfOk, IfErr};
ghost use Rattle.elf_obj.specs.Object.{Object};
ghost use Rattle.memtag_desc.specs.Numbers.{IsShortest};
ghost use Rattle.memtag_desc.specs.Descriptors.{Describes};
ghost use Rattle.linker.specs.declared.refusal.LinkRefusal.TheVariants.{NoMemory};
ghost use Rattle.linker.specs.Tagged.{SpellsOne, SpellsFrom, IsFewest};
ghost use Rattle.linker.specs.Totals.{AreSmall, totals_of};
ghost use Rattle.linker.specs.Spans.{at_place, AreApart, AreSpans, HasLength};

use crate::refusal::LinkRefusal;
use crate::spans::Span;
use crate::totals::Totals;
use memtag_desc::{Interval, encode};
use std::alloc::Global;

// How many bytes the shortest spelling of a number has.
fn number_len(n: u128) -> u128
    ensures len { HasLength (IsShortest n) result }
    ensures small { result ≤ 20 }
{
    let mut rest = n;
    let mut len = 1;
    while rest >= 128 {
        rest /= 128;
        len += 1;
    }
    len
}

// How many bytes the descriptor of a distance and a size in granules has.
fn descriptor_len(distance: u128, size: u128) -> u128
    requires distance_low { distance < 2 ^ 120 }
    requires size_low { size < 2 ^ 120 }
    requires some { 1 ≤ size }
    ensures len { HasLength (SpellsOne distance size) result }
    ensures small { result ≤ 40 }
{
    if size <= 7 {
        number_len(8 * distance + size)
    } else {
        number_len(8 * distance) + number_len(size - 1)
    }
}

// How many bytes describe the spans where the filled data begins at a place; they end at most so far behind it.
fn spelled_len(place: u128, end: u128, spans: &[Span]) -> u128
    requires whole { place % 16 ≡ 0 }
    requires place_low { place < 2 ^ 110 }
    requires end_low { end < 2 ^ 110 }
    requires apart { AreApart 0 end spans.now }
    ensures len { HasLength (SpellsFrom 0 (map (at_place place) spans.now)) result }
    ensures small { result ≤ 40 * length spans.now }
{
    let mut total = 0;
    let mut from = 0;
    for span in spans {
        let start = place + span.start;
        total += descriptor_len((start - from) / 16, span.bytes / 16);
        from = start + span.bytes;
    }
    total
}

/// The fewest bytes of descriptors that agree with the places to which their number leads.
pub(crate) fn fewest(totals: &Totals, spans: &[Span]) -> u128
    requires small { AreSmall totals.now }
    requires apart { AreApart 0 (totals.now.filled + totals.now.zeros) spans.now }
    ensures fewest { (objects : List Object) → AreSpans objects spans.now → totals.now ≡ totals_of objects → IsFewest objects result }
    ensures small { result < 2 ^ 80 }
{
    let end = totals.filled + totals.zeros;
    let mut count = 0;
    let mut next = spelled_len(totals.filled_place(0), end, spans);
    while next != count {
        count = next;
        next = spelled_len(totals.filled_place(count), end, spans);
    }
    count
}

// The intervals of the spans in an image whose filled data begins at a place.
fn intervals_of(alloc: Global, place: u64, spans: &[Span]) -> Result<Vec<Interval>, LinkRefusal>
    requires low { place < 2 ^ 32 }
    requires apart { AreApart 0 (2 ^ 32) spans.now }
    ensures intervals { IfOk result (λ v. v.items ≡ map (at_place place) spans.now) }
    ensures memory { IfErr result (λ r. r ≡ NoMemory) }
{
    let mut intervals = Vec::new(alloc);
    for span in spans {
        intervals.push(Interval {
            start: place + span.start as u64,
            bytes: span.bytes as u64,
        })?;
    }
    Ok(intervals)
}

/// The bytes that describe the spans there.
pub(crate) fn descriptors(alloc: Global, place: u64, spans: &[Span]) -> Result<Vec<u8>, LinkRefusal>
    requires whole { place % 16 ≡ 0 }
    requires low { place < 2 ^ 32 }
    requires apart { AreApart 0 (2 ^ 32) spans.now }
    ensures described { IfOk result (λ v. Describes (map (at_place place) spans.now) v.items) }
    ensures memory { IfErr result (λ r. r ≡ NoMemory) }
{
    let intervals = intervals_of(alloc, place, spans)?;
    let bytes = encode(alloc, &intervals)?;
    Ok(bytes)
}

//! Where the slots of a frame end.

ghost use Rattle.std.specs.Prelude.{◌≡◌, ◌≤◌, ◌<◌, ◌+◌, ◌*◌, ◌^◌, length};
ghost use Rattle.c_type_base.specs.Layout.{round_up};
ghost use Rattle.frame_layout.specs.Frames as spec;
ghost use Rattle.frame_layout.specs.Parts.{ArePositive};

use crate::placed::Part;
use slot_safety::Kind;

/// The first multiple of a positive number at or behind a place.
pub fn rounded_up(place: u128, unit: u64) -> u128
    requires positive { 1 ≤ unit }
    requires fits { place ≤ 2 ^ 127 + 2 ^ 126 }
    ensures value { result ≡ round_up place unit }
    ensures near { result ≤ place + unit }
{
    let unit = unit as u128;
    (place + (unit - 1)) / unit * unit
}

/// Where the safe slots end once a part has its place.
pub fn safe_after(place: u128, part: Part) -> u128
    requires positive { 1 ≤ part.align }
    requires fits { place ≤ 2 ^ 127 + 2 ^ 126 }
    ensures value { result ≡ spec.safe_step place part part.kind }
    ensures near { result ≤ place + 2 ^ 65 }
{
    match part.kind {
        Kind::Safe => rounded_up(place, part.align) + part.bytes as u128,
        Kind::Tagged => place,
    }
}

/// Where the tagged slots end once a part has its place.
pub fn tagged_after(place: u128, part: Part) -> u128
    requires fits { place ≤ 2 ^ 127 + 2 ^ 126 }
    ensures value { result ≡ spec.tagged_step place part part.kind }
    ensures near { result ≤ place + 2 ^ 33 }
{
    match part.kind {
        Kind::Safe => place,
        Kind::Tagged => place + rounded_up(part.bytes as u128, 16),
    }
}

/// Where the safe slots end.
pub fn safe_end(parts: &[Part], from: u128) -> u128
    requires positive { ArePositive parts.now }
    requires fits { from ≤ 2 ^ 68 }
    ensures value { result ≡ spec.safe_end from parts.now }
    ensures near { result ≤ from + length parts.now * 2 ^ 65 }
{
    let mut place = from;
    for part in parts {
        place = safe_after(place, *part);
    }
    place
}

/// Where the tagged slots end.
pub fn tagged_end(parts: &[Part], from: u128) -> u128
    requires fits { from ≤ 2 ^ 126 + 2 ^ 125 }
    ensures value { result ≡ spec.tagged_end from parts.now }
    ensures near { result ≤ from + length parts.now * 2 ^ 33 }
{
    let mut place = from;
    for part in parts {
        place = tagged_after(place, *part);
    }
    place
}

//! The slots of a frame.

ghost use Rattle.std.specs.Prelude.{◌≡◌, ◌≤◌, ◌<◌, ◌+◌, ◌^◌, IfOk};
ghost use Rattle.frame_layout.specs.Frames as spec;
ghost use Rattle.frame_layout.specs.Parts.{ArePositive};

use crate::ends::{rounded_up, safe_after, tagged_after};
use crate::frame::Slot;
use slot_safety::Kind;
use sqlite_items::Items;
use std::alloc::{AllocError, Global};

/// What a slot has to hold.
#[derive(Clone, Copy)]
pub struct Part {
    pub bytes: u32,
    /// Not 0.
    pub align: u64,
    pub kind: Kind,
    pub inner: bool,
}

/// The slot of a part, where the next safe and the next tagged one may start.
fn slot_of(safe: u128, tagged: u128, count: u64, part: Part) -> Slot
    requires positive { 1 ≤ part.align }
    requires safe_fits { spec.safe_step safe part part.kind ≤ spec.largest_frame }
    requires tagged_fits { spec.tagged_step tagged part part.kind ≤ spec.largest_frame }
    requires started { safe ≤ spec.largest_frame }
    ensures { result ≡ spec.slot_of safe tagged count part part.kind }
{
    match part.kind {
        Kind::Safe => Slot {
            start: rounded_up(safe, part.align) as u64,
            bytes: part.bytes as u64,
            kind: Kind::Safe,
            index: 0,
            inner: part.inner,
        },
        Kind::Tagged => Slot {
            start: tagged as u64,
            bytes: rounded_up(part.bytes as u128, 16) as u64,
            kind: Kind::Tagged,
            index: (count % 15) as u8,
            inner: part.inner,
        },
    }
}

/// How many slots are tagged with one more.
fn counted(count: u64, kind: Kind) -> u64
    requires { count < 2 ^ 63 }
    ensures value { result ≡ spec.count_step count kind }
    ensures near { result ≤ count + 1 }
{
    match kind {
        Kind::Safe => count,
        Kind::Tagged => count + 1,
    }
}

/// The slots of some parts, in order.
#[tactic(auto, using(crate::proofs::SlotTurns::slots_turn, crate::proofs::SlotTurns::safe_rest, crate::proofs::SlotTurns::tagged_rest))]
pub fn slots(
    alloc: Global,
    parts: &[Part],
    safe: u128,
    tagged: u128,
) -> Result<Items<Slot>, AllocError>
    requires positive { ArePositive parts.now }
    requires safe_fits { spec.safe_end safe parts.now ≤ spec.largest_frame }
    requires tagged_fits { spec.tagged_end tagged parts.now ≤ spec.largest_frame }
    ensures { IfOk result (λ slots. slots ≡ spec.slots_from safe tagged 0 parts.now) }
{
    let mut slots = Vec::new(alloc);
    let mut safe = safe;
    let mut tagged = tagged;
    let mut count: u64 = 0;
    for part in parts {
        slots.push(slot_of(safe, tagged, count, *part))?;
        safe = safe_after(safe, *part);
        tagged = tagged_after(tagged, *part);
        count = counted(count, part.kind);
    }
    Ok(Items::from_vec(slots))
}

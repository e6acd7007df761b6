// Where tagged slots stand.
ghost use Rattle.std.specs.Prelude.{◌≡◌, ◌≤◌};
ghost use Rattle.frame_layout.specs.WellFormed.{tagged_slots};
ghost use Rattle.tag_plan.specs.Lists.{bytes_of};
ghost use Rattle.tag_plan.specs.Stretches.{grow, grown, stretch_of};

use crate::places::is_tagged;
use frame_layout::Slot;

/// Slots one after another.
#[derive(Clone, Copy)]
pub struct Stretch {
    /// Where the first one starts.
    pub start: u64,
    /// The bytes of all of them.
    pub bytes: u64,
}

/// The tagged ones among slots, if there are some.

pub fn tagged_stretch(slots: &[Slot]) -> Option<Stretch>
    requires { bytes_of (tagged_slots slots.now) ≤ 262144 }
    ensures { result ≡ stretch_of (tagged_slots slots.now) }
{
    let mut found: Option<Stretch> = None;
    for slot in slots {
        if is_tagged(slot) {
            found = Some(with_slot(found, slot));
        }
    }
    found
}

// What was found so far, and one slot more.
fn with_slot(found: Option<Stretch>, slot: &Slot) -> Stretch
    requires { grown found slot.now ≤ 262144 }
    ensures { result ≡ grow found slot.now }
{
    match found {
        None => Stretch {
            start: slot.start,
            bytes: slot.bytes,
        },
        Some(before) => Stretch {
            start: before.start,
            bytes: before.bytes + slot.bytes,
        },
    }
}

//! Where the slot of a block stands.

ghost use Rattle.std.specs.Prelude.{◌≡◌, IsTrue, option_copied};
ghost use Rattle.mean_memory.specs.Shown.{Apart, IsPosition, StandsAt, slot_with};

use crate::slot::Slot;
use sqlite_items::at;

fn stands_at(slots: &[Slot], number: u64, index: usize) -> bool
    ensures { IsTrue result → StandsAt slots.now number index }
{
    match at(slots, index) {
        Some(slot) => slot.number == number,
        None => false,
    }
}

/// Looks from the latest on.
fn last_position(slots: &[Slot], number: u64) -> Option<usize>
    ensures { IsPosition slots.now number result }
{
    let mut index = slots.len();
    while index > 0 {
        index -= 1;
        if slots[index].number == number {
            return Some(index);
        }
    }
    None
}

/// Where the slot of a block stands, if the block is alive: where the order of the numbers says, and else the slots are looked through.
fn position_by_order(slots: &[Slot], number: u64) -> Option<usize>
    ensures { IsPosition slots.now number result }
{
    let index = slots.partition_point(|slot| slot.number < number);
    if stands_at(slots, number, index) {
        Some(index)
    } else {
        last_position(slots, number)
    }
}

/// How many hints there are for where slots stand.
pub const HINTS: usize = 4096;

/// Where the slot of a block stands, if the block is alive, by the hint for its number, which is told anew.
pub fn located(slots: &[Slot], hints: &mut [usize], number: u64) -> Option<usize>
    ensures { IsPosition slots.now number result }
{
    let Some(hint) = hints.get_mut(number as usize % HINTS) else {
        return position_by_order(slots, number);
    };
    if stands_at(slots, number, *hint) {
        return Some(*hint);
    }
    let index = position_by_order(slots, number);
    if let Some(index) = index {
        *hint = index;
    }
    index
}

/// The slot of a block, if the block is alive.
pub fn found<'a>(slots: &'a [Slot], hints: &mut [usize], number: u64) -> Option<&'a Slot>
    ensures { Apart slots.now → option_copied result ≡ slot_with slots.now number }
{
    match located(slots, hints, number) {
        Some(index) => at(slots, index),
        None => None,
    }
}

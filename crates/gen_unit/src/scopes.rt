//! The lists of scopes that are entered and left.

ghost use Rattle.std.specs.Prelude.{◌≡◌, IfOk, IsTrue, slice_get};
ghost use Rattle.frame_layout.specs.WellFormed.{IsWellFormed};
ghost use Rattle.tag_plan.specs.Effects.{AreNumbers, IsTaggedAt};
ghost use Rattle.tag_plan.specs.Lists.{enter_list, leave_list};

use a64_code::Instr;
use frame_layout::{Frame, Slot, Slots};
use slot_safety::Kind;
use sqlite_items::at;
use std::alloc::{AllocError, Global};
use tag_plan::{enter_scope, leave_scope};

// Whether there is a tagged slot of a number.
fn is_tagged_at(slots: &[Slot], number: u32) -> bool
    ensures { IsTrue result → IsTaggedAt slots.now number }
{
    match at(slots, number as usize) {
        None => false,
        Some(slot) => match slot.kind {
            Kind::Safe => false,
            Kind::Tagged => true,
        },
    }
}

// Whether these are numbers of tagged slots, each larger than the one before.
fn are_numbers(slots: &[Slot], numbers: &[u32]) -> bool
    ensures { IsTrue result → AreNumbers slots.now 0 numbers.now }
{
    let mut next: u64 = 0;
    for number in numbers {
        if (*number as u64) < next {
            return false;
        }
        if !is_tagged_at(slots, *number) {
            return false;
        }
        next = *number as u64 + 1;
    }
    true
}

/// The code where a scope is entered whose tagged slots have these numbers. The code of statements names no others, and in rising order;
/// where they are others, memory is taken to be short.
pub fn enter(alloc: Global, frame: &Frame, slots: &Slots) -> Result<Vec<Instr>, AllocError>
    requires { IsWellFormed frame.now }
    ensures { IfOk result (λ code. code.items ≡ enter_list frame.now slots.now.0) }
{
    if are_numbers(frame.slots.as_slice(), slots.0.as_slice()) {
        enter_scope(alloc, frame, slots)
    } else {
        Err(AllocError)
    }
}

/// The code where scopes are left whose slots are those from one number to another, as far as there are such.
pub fn leave(alloc: Global, frame: &Frame, first: u32, last: u32) -> Result<Vec<Instr>, AllocError>
    requires { IsWellFormed frame.now }
    ensures { IfOk result (λ code. code.items ≡ leave_list frame.now first last) }
{
    let count = frame.slots.len();
    if last < first || count <= first as usize {
        return Ok(Vec::new(alloc));
    }
    leave_scope(alloc, frame, first, (count - 1).min(last as usize) as u32)
}

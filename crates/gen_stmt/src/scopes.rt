//! The code by which scopes are entered and left.

ghost use Rattle.std.specs.Prelude.{◌≡◌, IfOk, OnOk, option_copied};
ghost use Rattle.std.specs.List.{list_any};
ghost use Rattle.frame_layout.specs.WellFormed.{is_tagged_slot};
ghost use Rattle.tag_plan.specs.Lists.{between};
ghost use Rattle.gen_base.specs.Code.{Appends};
ghost use Rattle.gen_stmt.specs.Scopes as spec;

use crate::around::Range;
use a64_code::Instr;
use frame_layout::{Frame, Slot, Slots};
use gen_base::{push, push_instr};
use slot_safety::Kind;
use sqlite_items::{Items, at};
use std::alloc::{AllocError, Global};
use sym_code::{SymCode, SymItem};

fn is_tagged(slot: &Slot) -> bool
    ensures { result ≡ is_tagged_slot slot.now }
{
    match slot.kind {
        Kind::Safe => false,
        Kind::Tagged => true,
    }
}

fn is_tagged_there(slot: Option<&Slot>) -> bool
    ensures { result ≡ spec.is_tagged_there (option_copied slot.entry) }
{
    match slot {
        None => false,
        Some(slot) => is_tagged(slot),
    }
}

// The locals among some that have tagged slots.
fn tagged_among(alloc: Global, frame: &Frame, locals: &[u32]) -> Result<Vec<u32>, AllocError>
    ensures { IfOk result (λ tagged. tagged.items ≡ spec.tagged_among frame.now locals.now) }
{
    let mut tagged = Vec::new(alloc);
    for local in locals {
        if is_tagged_there(at(frame.slots.as_slice(), *local as usize)) {
            tagged.push(*local)?;
        }
    }
    Ok(tagged)
}

// Appends: a scope is entered that declares these locals.
pub fn push_enter(
    alloc: Global,
    frame: &Frame,
    locals: &[u32],
    code: &mut SymCode,
) -> Result<(), AllocError>
    ensures { OnOk result (Appends code.old (spec.enter frame.now locals.now) code.new) }
{
    let tagged = tagged_among(alloc, frame, locals)?;
    if tagged.len() == 0 {
        return push_instr(code, Instr::Nop);
    }
    push(code, SymItem::EnterScope(Slots(Items::from_vec(tagged))))
}

fn any_tagged(slots: &[Slot]) -> bool
    ensures { result ≡ list_any is_tagged_slot slots.now }
{
    for slot in slots {
        if is_tagged(slot) {
            return true;
        }
    }
    false
}

// Whether a slot from one number to another is tagged.
fn has_tagged(slots: &[Slot], range: Range) -> bool
    ensures { result ≡ list_any is_tagged_slot (between slots.now range.first range.last) }
{
    let first = range.first as usize;
    let end = (range.last as usize + 1).min(slots.len());
    if end <= first {
        return false;
    }
    any_tagged(&slots[first..end])
}

// Appends: scopes are left whose locals are those from one number to another.
pub fn push_leave(frame: &Frame, range: Range, code: &mut SymCode) -> Result<(), AllocError>
    ensures { OnOk result (Appends code.old (spec.leave_range frame.now range) code.new) }
{
    if has_tagged(frame.slots.as_slice(), range) {
        push(code, SymItem::LeaveScope(range.first, range.last))
    } else {
        Ok(())
    }
}

// Appends: the scopes are left that are open, if there are some.
pub fn push_leave_open(
    frame: &Frame,
    opened: Option<Range>,
    code: &mut SymCode,
) -> Result<(), AllocError>
    ensures { OnOk result (Appends code.old (spec.leave frame.now opened) code.new) }
{
    match opened {
        None => Ok(()),
        Some(range) => push_leave(frame, range, code),
    }
}

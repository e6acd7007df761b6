//! How many words items become.

ghost use Rattle.std.specs.Prelude.{◌≡◌, ◌+◌, ◌^◌, ◌<◌, IfOk};
ghost use Rattle.frame_layout.specs.WellFormed.{IsWellFormed};
ghost use Rattle.gen_unit.specs.Appended.{form};
ghost use Rattle.gen_unit.specs.Labels as spec;
ghost use Rattle.gen_unit.specs.Words.{item_length as length_of};

use crate::lists::address;
use crate::scopes::{enter, leave};
use frame_layout::Frame;
use std::alloc::{AllocError, Global};
use sym_code::SymItem;

/// Jumps reach each place of a function that has fewer words.
const REACH: u32 = 1 << 25;

/// The words of an item, in code that is long or not.
pub fn item_length(
    alloc: Global,
    frame: &Frame,
    long: bool,
    item: &SymItem,
) -> Result<usize, AllocError>
    requires { IsWellFormed frame.now }
    ensures { IfOk result (λ words. words ≡ length_of (form frame.now long) item.now) }
{
    match item {
        SymItem::Label(_) => Ok(0),
        SymItem::Plain(_)
        | SymItem::Jump(_)
        | SymItem::CallFunction(_)
        | SymItem::CallExtern(_)
        | SymItem::Leave => Ok(1),
        SymItem::JumpIfZero(_, _) | SymItem::JumpIfNotZero(_, _) => Ok(if long { 2 } else { 1 }),
        SymItem::GlobalAddress(_, _) | SymItem::ExternAddress(_, _) | SymItem::TextAddress(_, _) =>
            Ok(2),
        SymItem::SlotAddress(slot, into) => Ok(address(alloc, frame, *slot, *into)?.len()),
        SymItem::EnterScope(slots) => Ok(enter(alloc, frame, slots)?.len()),
        SymItem::LeaveScope(first, last) => Ok(leave(alloc, frame, *first, *last)?.len()),
    }
}

/// The place so many words behind another. Where jumps from the function's start do not reach it, memory is taken to be short.
pub fn after(place: u32, words: usize) -> Result<u32, AllocError>
    requires { place < 2 ^ 25 }
    ensures is { IfOk result (λ next. next ≡ place + words) }
    ensures near { IfOk result (λ next. next < 2 ^ 25) }
{
    if words < (REACH - place) as usize {
        Ok(place + words as u32)
    } else {
        Err(AllocError)
    }
}

/// Where what comes behind some items stands.
pub fn end_of(
    alloc: Global,
    frame: &Frame,
    long: bool,
    items: &[SymItem],
    at: u32,
) -> Result<u32, AllocError>
    requires frame { IsWellFormed frame.now }
    requires near { at < 2 ^ 25 }
    ensures is { IfOk result (λ end. end ≡ spec.end_of (form frame.now long) at items.now) }
    ensures near { IfOk result (λ end. end < 2 ^ 25) }
{
    let mut place = at;
    for item in items {
        place = after(place, item_length(alloc, frame, long, item)?)?;
    }
    Ok(place)
}

// The words of a row's calls.
ghost use Rattle.frame_layout.specs.WellFormed.{IsWellFormed};

use a64_code::{Instr, Reg, encode};
use frame_layout::{Frame, Slots};
use slot_safety::Kind;
use sqlite_items::Items;
use std::alloc::{AllocError, Global};
use tag_plan::{enter_scope, epilogue, leave_scope, prologue, slot_address};

/// The words of a call's list; None where it is no call.
pub fn words_of(alloc: Global, frame: &Frame, call: &str) -> Result<Option<Vec<u32>>, AllocError>
    requires { IsWellFormed frame.now }
{
    match list_of(alloc, frame, call)? {
        Some(list) => encoded(alloc, &list),
        None => Ok(None),
    }
}

fn encoded(alloc: Global, list: &[Instr]) -> Result<Option<Vec<u32>>, AllocError> {
    let mut words = Vec::new(alloc);
    for instr in list {
        match encode(*instr) {
            Some(word) => words.push(word)?,
            None => return Ok(None),
        }
    }
    Ok(Some(words))
}

fn list_of(alloc: Global, frame: &Frame, call: &str) -> Result<Option<Vec<Instr>>, AllocError>
    requires { IsWellFormed frame.now }
{
    let (name, rest) = call.split_once(':').unwrap_or((call, ""));
    match name {
        "entry" => Ok(Some(prologue(alloc, frame)?)),
        "exit" => Ok(Some(epilogue(alloc, frame)?)),
        "enter" => entering(alloc, frame, rest),
        "leave" => leaving(alloc, frame, rest),
        "at" => pointing(alloc, frame, rest),
        _ => Ok(None),
    }
}

/// The list where a scope of one tagged slot is entered.
fn entering(alloc: Global, frame: &Frame, text: &str) -> Result<Option<Vec<Instr>>, AllocError>
    requires { IsWellFormed frame.now }
{
    let Ok(number) = text.parse::<u32>() else {
        return Ok(None);
    };
    let Some(slot) = frame.slots.as_slice().get(number as usize) else {
        return Ok(None);
    };
    let Kind::Tagged = slot.kind else {
        return Ok(None);
    };
    let mut numbers = Vec::new(alloc);
    numbers.push(number)?;
    let slots = Slots(Items::from_vec(numbers));
    Ok(Some(enter_scope(alloc, frame, &slots)?))
}

fn leaving(alloc: Global, frame: &Frame, text: &str) -> Result<Option<Vec<Instr>>, AllocError>
    requires { IsWellFormed frame.now }
{
    let Some((first, last)) = two_numbers(text) else {
        return Ok(None);
    };
    if first > last || last as usize >= frame.slots.as_slice().len() {
        return Ok(None);
    }
    Ok(Some(leave_scope(alloc, frame, first, last)?))
}

fn pointing(alloc: Global, frame: &Frame, text: &str) -> Result<Option<Vec<Instr>>, AllocError>
    requires { IsWellFormed frame.now }
{
    let Some((slot, register)) = two_numbers(text) else {
        return Ok(None);
    };
    let Ok(register) = u8::try_from(register) else {
        return Ok(None);
    };
    if slot as usize >= frame.slots.as_slice().len() {
        return Ok(None);
    }
    Ok(Some(slot_address(alloc, frame, slot, Reg(register))?))
}

fn two_numbers(text: &str) -> Option<(u32, u32)> {
    let (first, second) = text.split_once(':')?;
    Some((first.parse().ok()?, second.parse().ok()?))
}

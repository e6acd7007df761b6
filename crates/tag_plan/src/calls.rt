// The lists of a frame.
ghost use Rattle.std.specs.Prelude.{◌≡◌, ◌≤◌, ◌<◌, ◌++◌, IfOk, OnOk, Some, flat_map, length, slice_get};
ghost use Rattle.frame_layout.specs.declared.frame.Slot.{Slot};
ghost use Rattle.frame_layout.specs.WellFormed.{IsWellFormed};
ghost use Rattle.tag_plan.specs.Effects.{AreNumbers, IsTaggedAt};
ghost use Rattle.tag_plan.specs.Stretches.{AreSmall, IsSmall};
ghost use Rattle.tag_plan.specs.Lists.{base_list, enter_list, entry_list, exit_list, leave_list, outer_tagged};
ghost use Rattle.tag_plan.specs.Lists.{slot_address_list, slot_list};

use crate::places::{TAGGED_BASE, is_tagged, push_address, push_clearing, push_slot};
use crate::rounds::STACK_POINTER;
use crate::stretch::tagged_stretch;
use a64_code::{Instr, Reg};
use frame_layout::{Frame, Slot, Slots};
use std::alloc::{AllocError, Global};

// The base word's place in the frame, in units of 8 bytes.
const BASE_WORD: u16 = 2;

/// The zero register, in a field that takes the number 31 for it.
const ZERO: Reg = Reg(31);

/// The code behind a function's entry, run with SP at the frame's lowest address: a tag is drawn, X28 is saved in the base word and
/// becomes the tagged base, and each tagged slot that lives as long as the call gets its tag. Empty where no slot is tagged.
pub fn prologue(alloc: Global, frame: &Frame) -> Result<Vec<Instr>, AllocError>
    requires { IsWellFormed frame.now }
    ensures { IfOk result (λ code. code.items ≡ entry_list frame.now) }
{
    let mut code = Vec::new(alloc);
    if tagged_stretch(frame.slots.as_slice()).is_some() {
        push_base(&mut code)?;
        push_outer(&mut code, frame.slots.as_slice())?;
    }
    Ok(code)
}

// Appends: X28 is saved, and gets SP with a tag that is drawn.
fn push_base(code: &mut Vec<Instr>) -> Result<(), AllocError>
    ensures { OnOk result (code.new.items ≡ code.old.items ++ base_list) }
{
    code.push(Instr::Str {
        wide: true,
        imm12: BASE_WORD,
        rn: STACK_POINTER,
        rt: TAGGED_BASE,
    })?;
    code.push(Instr::Irg {
        rm: ZERO,
        rn: STACK_POINTER,
        rd: TAGGED_BASE,
    })?;
    Ok(())
}

// Appends: the tagged slots that live as long as the call get their tags.
#[tactic(auto, using(crate::proofs::Turns::outer_turn, crate::proofs::Turns::safe_turn, crate::proofs::Turns::inner_turn, crate::proofs::Turns::small_here))]
fn push_outer(code: &mut Vec<Instr>, slots: &[Slot]) -> Result<(), AllocError>
    requires { AreSmall slots.now }
    ensures { OnOk result (code.new.items ≡ code.old.items ++ flat_map slot_list (outer_tagged slots.now)) }
{
    for slot in slots {
        if is_tagged(slot) && !slot.inner {
            push_slot(code, slot)?;
        }
    }
    Ok(())
}

/// The code ahead of a function's exit: no granule of the frame has a tag after it, if none besides those of its tagged slots had one,
/// and X28 is what the base word has. Empty where no slot is tagged.
pub fn epilogue(alloc: Global, frame: &Frame) -> Result<Vec<Instr>, AllocError>
    requires { IsWellFormed frame.now }
    ensures { IfOk result (λ code. code.items ≡ exit_list frame.now) }
{
    let mut code = Vec::new(alloc);
    if let Some(tagged) = tagged_stretch(frame.slots.as_slice()) {
        push_clearing(&mut code, tagged.start, tagged.bytes / 16)?;
        code.push(Instr::Ldr {
            wide: true,
            imm12: BASE_WORD,
            rn: STACK_POINTER,
            rt: TAGGED_BASE,
        })?;
    }
    Ok(code)
}

/// The code where an inner scope is entered whose tagged slots these are, in rising order: they get their tags.
pub fn enter_scope(alloc: Global, frame: &Frame, slots: &Slots) -> Result<Vec<Instr>, AllocError>
    requires frame { IsWellFormed frame.now }
    requires slots { AreNumbers frame.now.slots 0 slots.now.0 }
    ensures { IfOk result (λ code. code.items ≡ enter_list frame.now slots.now.0) }
{
    let mut code = Vec::new(alloc);
    push_listed(&mut code, frame, slots.0.as_slice())?;
    Ok(code)
}

// Appends: the slots of these numbers get their tags.
#[tactic(auto, using(crate::proofs::Turns::listed_turn))]
fn push_listed(code: &mut Vec<Instr>, frame: &Frame, numbers: &[u32]) -> Result<(), AllocError>
    requires frame { IsWellFormed frame.now }
    requires numbers { AreNumbers frame.now.slots 0 numbers.now }
    ensures { OnOk result (code.new.items ≡ code.old.items ++ enter_list frame.now numbers.now) }
{
    for number in numbers {
        push_slot(code, tagged_at(frame, *number))?;
    }
    Ok(())
}

// The slot of a number.
fn slot_at(frame: &Frame, number: u32) -> &Slot
    requires frame { IsWellFormed frame.now }
    requires range { number < length frame.now.slots }
    ensures is { slice_get frame.now.slots number ≡ Some result.now }
    ensures start { result.now.start ≤ 262144 }
{
    &frame.slots.as_slice()[number as usize]
}

// The tagged slot of a number.
fn tagged_at(frame: &Frame, number: u32) -> &Slot
    requires frame { IsWellFormed frame.now }
    requires there { IsTaggedAt frame.now.slots number }
    ensures is { slice_get frame.now.slots number ≡ Some result.now }
    ensures small { IsSmall result.now }
{
    slot_at(frame, number)
}

/// The code where one or several inner scopes are left, whose tagged slots are those from one number to another: they lose their tags.
#[tactic(auto, using(crate::proofs::Turns::clear_stretch, crate::proofs::Turns::clear_nothing))]
pub fn leave_scope(
    alloc: Global,
    frame: &Frame,
    first: u32,
    last: u32,
) -> Result<Vec<Instr>, AllocError>
    requires frame { IsWellFormed frame.now }
    requires order { first ≤ last }
    requires range { last < length frame.now.slots }
    ensures { IfOk result (λ code. code.items ≡ leave_list frame.now first last) }
{
    let mut code = Vec::new(alloc);
    let left = &frame.slots.as_slice()[first as usize..last as usize + 1];
    if let Some(tagged) = tagged_stretch(left) {
        push_clearing(&mut code, tagged.start, tagged.bytes / 16)?;
    }
    Ok(code)
}

/// The code that puts the pointer to a slot into a register: for a tagged slot with its tag, if X28 is the tagged base, else SP and the
/// slot's start. It has no load and changes that register alone.
pub fn slot_address(
    alloc: Global,
    frame: &Frame,
    slot: u32,
    into: Reg,
) -> Result<Vec<Instr>, AllocError>
    requires frame { IsWellFormed frame.now }
    requires range { slot < length frame.now.slots }
    ensures { IfOk result (λ code. (s : Slot) → slice_get frame.now.slots slot ≡ Some s → code.items ≡ slot_address_list s into) }
{
    let mut code = Vec::new(alloc);
    push_address(&mut code, slot_at(frame, slot), into)?;
    Ok(code)
}

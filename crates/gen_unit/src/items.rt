//! The words of items.

ghost use Rattle.std.specs.Prelude.{◌≡◌, ◌<◌, ◌^◌, OnOk};
ghost use Rattle.frame_layout.specs.WellFormed.{IsWellFormed};
ghost use Rattle.gen_unit.specs.Appended.{Gains, form, targets_of};
ghost use Rattle.gen_unit.specs.Labels.{words_in};
ghost use Rattle.gen_unit.specs.Words as spec;

use crate::jumps::{push_branch, push_jump};
use crate::labels::Labels;
use crate::lengths::after;
use crate::lists::address;
use crate::output::{Output, push, push_all, push_waiting};
use crate::parts::CodeTarget;
use crate::scopes::{enter, leave};
use a64_code::{Instr, Reg};
use frame_layout::Frame;
use std::alloc::{AllocError, Global};
use sym_code::SymItem;

// ---- words that wait (ELF for the Arm 64-bit architecture)

const ADR_PREL_PG_HI21: u32 = 275;

const ADD_ABS_LO12_NC: u32 = 277;

const CALL26: u32 = 283;

const ADR_GOT_PAGE: u32 = 311;

const LD64_GOT_LO12_NC: u32 = 312;

// Appends: the pointer to an object comes from the GOT into a register.
fn push_object(out: &mut Output, target: CodeTarget, reg: Reg) -> Result<(), AllocError>
    ensures { OnOk result (Gains out.old (spec.object_words target reg) out.new) }
{
    let page = Instr::Adrp {
        immlo: 0,
        immhi: 0,
        rd: reg,
    };
    push_waiting(out, page, ADR_GOT_PAGE, target)?;
    let load = Instr::Ldr {
        wide: true,
        imm12: 0,
        rn: reg,
        rt: reg,
    };
    push_waiting(out, load, LD64_GOT_LO12_NC, target)
}

// Appends: the pointer to a text comes into a register.
fn push_text(out: &mut Output, number: u32, reg: Reg) -> Result<(), AllocError>
    ensures { OnOk result (Gains out.old (spec.text_words number reg) out.new) }
{
    let page = Instr::Adrp {
        immlo: 0,
        immhi: 0,
        rd: reg,
    };
    push_waiting(out, page, ADR_PREL_PG_HI21, CodeTarget::Text(number))?;
    let add = Instr::AddImm {
        wide: true,
        sh: 0,
        imm12: 0,
        rn: reg,
        rd: reg,
    };
    push_waiting(out, add, ADD_ABS_LO12_NC, CodeTarget::Text(number))
}

// Appends a call.
fn push_call(out: &mut Output, target: CodeTarget) -> Result<(), AllocError>
    ensures { OnOk result (Gains out.old (spec.call_words target) out.new) }
{
    push_waiting(out, Instr::Bl { imm26: 0 }, CALL26, target)
}

// ---- items

// Appends the words of an item that stands at a place.
fn push_item(
    alloc: Global,
    out: &mut Output,
    frame: &Frame,
    labels: &Labels,
    at: u32,
    item: &SymItem,
) -> Result<(), AllocError>
    requires frame { IsWellFormed frame.now }
    requires near { at < 2 ^ 25 }
    ensures { OnOk result (Gains out.old (spec.item_words (form frame.now labels.now.long) (targets_of labels.now) at item.now) out.new) }
{
    match item {
        SymItem::Plain(instr) => push(out, *instr),
        SymItem::Label(_) => Ok(()),
        SymItem::Jump(label) => push_jump(out, at, labels.place_of(*label)),
        SymItem::JumpIfZero(reg, label) => {
            push_branch(out, labels.long, true, *reg, at, labels.place_of(*label))
        }
        SymItem::JumpIfNotZero(reg, label) => {
            push_branch(out, labels.long, false, *reg, at, labels.place_of(*label))
        }
        SymItem::SlotAddress(slot, into) => {
            push_all(out, address(alloc, frame, *slot, *into)?.as_slice())
        }
        SymItem::GlobalAddress(number, into) => push_object(
            out,
            CodeTarget::Global(*number),
            *into,
        ),
        SymItem::ExternAddress(number, into) => push_object(
            out,
            CodeTarget::Extern(*number),
            *into,
        ),
        SymItem::TextAddress(number, into) => push_text(out, *number, *into),
        SymItem::CallFunction(number) => push_call(out, CodeTarget::Function(*number)),
        SymItem::CallExtern(number) => push_call(out, CodeTarget::Extern(*number)),
        SymItem::Leave => push_jump(out, at, labels.end),
        SymItem::EnterScope(slots) => push_all(out, enter(alloc, frame, slots)?.as_slice()),
        SymItem::LeaveScope(first, last) => {
            push_all(out, leave(alloc, frame, *first, *last)?.as_slice())
        }
    }
}

/// Appends the words of some items, the first of which stands at a place.
pub fn push_items(
    alloc: Global,
    out: &mut Output,
    frame: &Frame,
    labels: &Labels,
    at: u32,
    items: &[SymItem],
) -> Result<(), AllocError>
    requires frame { IsWellFormed frame.now }
    requires near { at < 2 ^ 25 }
    ensures { OnOk result (Gains out.old (words_in (form frame.now labels.now.long) (targets_of labels.now) at items.now) out.new) }
{
    let mut place = at;
    for item in items {
        let before = out.words.len();
        push_item(alloc, out, frame, labels, place, item)?;
        place = after(place, out.words.len() - before)?;
    }
    Ok(())
}

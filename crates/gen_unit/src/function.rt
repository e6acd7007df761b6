//! The words of a function.

ghost use Rattle.std.specs.Prelude.{◌≡◌, ◌≤◌, ◌<◌, ◌^◌, IfOk, OnOk};
ghost use Rattle.c_type_base.specs.Layout.{LaidOut};
ghost use Rattle.c_type_base.specs.Sizes.{AreObjects, HaveBytes};
ghost use Rattle.frame_layout.specs.Frames as frames;
ghost use Rattle.frame_layout.specs.WellFormed.{IsWellFormed};
ghost use Rattle.frame_layout.specs.StatementNeeds.{stmt_need};
ghost use Rattle.gen_unit.specs.Appended.{AreLabels, Gains};
ghost use Rattle.gen_unit.specs.Functions as spec;
ghost use Rattle.gen_unit.specs.Labels.{form_of};

use crate::code::function_code;
use crate::items::push_items;
use crate::labels::Labels;
use crate::lengths::{after, end_of};
use crate::lists::{entry, exit};
use crate::output::{Output, push_all};
use crate::table::labels;
use c_type_base::{TFunction, Typed};
use frame_layout::{Frame, layout};
use std::alloc::{AllocError, Global};
use sym_code::SymItem;

/// A branch on a register reaches each place of a function that has fewer words.
const NEAR: u32 = 1 << 18;

// The labels of a function's items, which begin at a place.
fn labels_of(alloc: Global, frame: &Frame, items: &[SymItem], at: u32) -> Result<Labels, AllocError>
    requires frame { IsWellFormed frame.now }
    requires near { at < 2 ^ 25 }
    ensures { IfOk result (AreLabels (form_of frame.now at items.now) at items.now) }
{
    let end = end_of(alloc, frame, true, items, at)?;
    labels(alloc, frame, NEAR <= end, items, at)
}

// Appends the words of items between entry and exit.
fn push_around(
    alloc: Global,
    out: &mut Output,
    frame: &Frame,
    items: &[SymItem],
) -> Result<(), AllocError>
    requires { IsWellFormed frame.now }
    ensures { OnOk result (Gains out.old (spec.words_around frame.now items.now) out.new) }
{
    let before = entry(alloc, frame)?;
    let at = after(0, before.len())?;
    let labels = labels_of(alloc, frame, items, at)?;
    push_all(out, before.as_slice())?;
    push_items(alloc, out, frame, &labels, at, items)?;
    push_all(out, exit(alloc, frame)?.as_slice())
}

// The frame of a function. It is not too large.
fn frame_of(alloc: Global, typed: &Typed, function: &TFunction) -> Result<Frame, AllocError>
    requires laid_out { LaidOut typed.now.structs }
    requires objects { AreObjects typed.now.structs function.now.locals }
    requires bytes { HaveBytes typed.now.structs }
    ensures is { IfOk result (λ frame. frame ≡ frames.frame typed.now.structs function.now) }
    ensures well { IfOk result IsWellFormed }
    ensures need { IfOk result (λ frame. stmt_need function.now.body ≤ 32765) }
{
    match layout(alloc, function, typed.structs.as_slice()) {
        Ok(frame) => Ok(frame),
        Err(_) => Err(AllocError),
    }
}

/// Appends the words of a function. Where its frame is too large, or a jump does not reach it, memory is taken to be short.
pub fn push_function(
    alloc: Global,
    out: &mut Output,
    typed: &Typed,
    function: &TFunction,
) -> Result<(), AllocError>
    requires laid_out { LaidOut typed.now.structs }
    requires objects { AreObjects typed.now.structs function.now.locals }
    requires bytes { HaveBytes typed.now.structs }
    ensures { OnOk result (Gains out.old (spec.function_words typed.now.structs function.now) out.new) }
{
    let frame = frame_of(alloc, typed, function)?;
    let code = function_code(alloc, typed, &frame, function)?;
    push_around(alloc, out, &frame, code.items.as_slice())
}

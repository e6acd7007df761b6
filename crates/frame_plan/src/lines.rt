// The lines, one for each function and one for each of its parameters and locals.
ghost use Rattle.std.specs.Prelude.{◌≡◌, ◌⊎◌, ◌++◌, ℕ, List, length, IfOk, IfErr, OnOk, MatchResult};
ghost use Rattle.std.specs.String.{string_bytes};
ghost use Rattle.c_type_base.specs.Layout.{LaidOut};
ghost use Rattle.c_type_base.specs.Sizes.{AreObjects, HaveObjects};
ghost use Rattle.frame_layout.specs.Frames as spec;
ghost use Rattle.frame_layout.specs.Layouts.{IsLaid};
ghost use Rattle.frame_plan.specs.Lines.{function_lines, slot_lines, slot_words};
ghost use Rattle.frame_plan.specs.Refusal.{HasNoText, HasText};
ghost use Rattle.frame_plan.specs.Laws.OneText.{ArePlanned, AreRefused, IsLargeRefusal};

use crate::refusal::PlanRefusal;
use c_type_base::{LocalInfo, StructInfo, TFunction, Typed};
use frame_layout::{Frame, LayoutRefusal, Slot, layout};
use slot_safety::Kind;
use std::alloc::{AllocError, Global};
use std::fmt::Write;

/// The greatest number of functions that a program may define.
pub(crate) const MOST_FUNCTIONS: usize = 512;

/// The lines that tell the frames of a program's functions. For each function in order there is `function NAME BYTES`, and
/// behind it for each parameter and local, in order of declaration, `safe START BYTES NAME` or `tagged START BYTES INDEX NAME`.
/// The bytes of a tagged one are its rounded bytes, and START is in bytes from the frame's lowest address.
///
/// # Errors
/// `TooManyFunctions` exactly over 512 functions, and else `FrameTooLarge` exactly for the first function whose frame has more
/// than 262,144 bytes.
pub fn plan(alloc: Global, typed: &Typed) -> Result<Vec<u8>, PlanRefusal>
    requires laid_out { LaidOut typed.now.structs }
    requires objects { HaveObjects typed.now.structs typed.now.functions }

    // What is said is the program's text.
    ensures found { IfOk result (λ text. HasText typed.now text.items) }

    // A program's text is said, unless memory runs out.
    ensures only { (text : List ℕ) → HasText typed.now text
        → MatchResult result (λ t. t.items ≡ text) (λ e. e ≡ PlanRefusal.NoMemory) }

    // What is refused has that first fault, unless memory ran out.
    ensures refused { IfErr result (λ e. (e ≡ PlanRefusal.NoMemory) ⊎ HasNoText typed.now e) }

    // A program that has a fault is refused with it, unless memory runs out.
    ensures refuses { (fault : PlanRefusal) → HasNoText typed.now fault
        → MatchResult result (λ t. ⊥) (λ e. (e ≡ fault) ⊎ (e ≡ PlanRefusal.NoMemory)) }
{
    let functions = typed.functions.as_slice();
    if functions.len() > MOST_FUNCTIONS {
        return Err(PlanRefusal::TooManyFunctions {
            count: functions.len() as u64,
        });
    }
    lines_of(alloc, functions, typed.structs.as_slice())
}

// The lines of some functions.
fn lines_of(
    alloc: Global,
    functions: &[TFunction],
    structs: &[StructInfo],
) -> Result<Vec<u8>, PlanRefusal>
    requires laid_out { LaidOut structs.now }
    requires objects { HaveObjects structs.now functions.now }
    ensures found { IfOk result (λ text. ArePlanned structs.now functions.now text.items) }
    ensures refused { IfErr result (λ e. (e ≡ PlanRefusal.NoMemory) ⊎ AreRefused structs.now functions.now e) }
{
    let mut text = Vec::new(alloc);
    for function in functions {
        let frame = match frame_of(alloc, function, structs) {
            Ok(frame) => frame,
            Err(refusal) => return Err(refusal),
        };
        put_function(alloc, &mut text, function, &frame)?;
    }
    Ok(text)
}

// The frame of a function.
pub(crate) fn frame_of(
    alloc: Global,
    function: &TFunction,
    structs: &[StructInfo],
) -> Result<Frame, PlanRefusal>
    requires laid_out { LaidOut structs.now }
    requires objects { AreObjects structs.now function.now.locals }
    ensures found { IfOk result (λ given. IsLaid given (spec.frame structs.now function.now)) }
    ensures refused { IfErr result (λ e. (e ≡ PlanRefusal.NoMemory) ⊎ IsLargeRefusal structs.now function.now e) }
{
    match layout(alloc, function, structs) {
        Ok(frame) => Ok(frame),
        Err(LayoutRefusal::FrameTooLarge { bytes }) => Err(PlanRefusal::FrameTooLarge {
            bytes,
            span: function.span,
        }),
        Err(LayoutRefusal::NoMemory) => Err(PlanRefusal::NoMemory),
    }
}

// Appends the lines of a function that has this frame.
fn put_function(
    alloc: Global,
    text: &mut Vec<u8>,
    function: &TFunction,
    frame: &Frame,
) -> Result<(), AllocError>
    requires { length frame.now.slots ≡ length function.now.locals }
    ensures { OnOk result (text.new.items ≡ text.old.items ++ function_lines function.now frame.now) }
{
    let bytes = frame.bytes;
    let behind = format!(in alloc; " {bytes}\n")?;
    put_line(text, "function ", function.name.as_slice(), behind.as_str())?;
    put_slots(
        alloc,
        text,
        function.locals.as_slice(),
        frame.slots.as_slice(),
    )
}

// Appends a line for each parameter and local.
#[tactic(auto, using(crate::proofs::Turns::slots_turn))]
fn put_slots(
    alloc: Global,
    text: &mut Vec<u8>,
    locals: &[LocalInfo],
    slots: &[Slot],
) -> Result<(), AllocError>
    requires { length slots.now ≡ length locals.now }
    ensures { OnOk result (text.new.items ≡ text.old.items ++ slot_lines locals.now slots.now) }
{
    for (number, local) in locals.iter().enumerate() {
        let words = words_of(alloc, slots[number])?;
        put_line(text, words.as_str(), local.name.as_slice(), "\n")?;
    }
    Ok(())
}

// What is said of a slot before the name.
fn words_of(alloc: Global, slot: Slot) -> Result<String, AllocError>
    ensures { IfOk result (λ words. string_bytes words ≡ slot_words slot slot.kind) }
{
    let (start, bytes, index) = (slot.start, slot.bytes, slot.index);
    match slot.kind {
        Kind::Safe => format!(in alloc; "safe {start} {bytes} "),
        Kind::Tagged => format!(in alloc; "tagged {start} {bytes} {index} "),
    }
}

// Appends a name with what stands before and behind it.
fn put_line(text: &mut Vec<u8>, before: &str, name: &[u8], behind: &str) -> Result<(), AllocError>
    ensures { OnOk result (text.new.items ≡ text.old.items ++ (before.now ++ name.now ++ behind.now)) }
{
    text.extend_from_slice(before.as_bytes())?;
    text.extend_from_slice(name)?;
    text.extend_from_slice(behind.as_bytes())
}

//! The code of a translation unit.

ghost use Rattle.std.specs.Prelude.{◌≡◌, ◌⊎◌, ◌*◌, ◌+◌, IfOk, IfErr, OnOk, MatchResult};
ghost use Rattle.c_type_base.specs.Layout.{LaidOut};
ghost use Rattle.c_type_base.specs.Sizes.{HaveBytes, HaveObjects};
ghost use Rattle.frame_plan.specs.Refusal.{HasNoText};
ghost use Rattle.gen_unit.specs.Appended.{AreParts};
ghost use Rattle.gen_unit.specs.Units.{IsCodeOf, place_of};

use crate::function::push_function;
use crate::output::{Output, bytes_of};
use crate::parts::{Place, UnitCode};
use c_type_base::{TFunction, Typed};
use frame_plan::{PlanRefusal, frame_sizes};
use std::alloc::{AllocError, Global};

// Where a function stands, by the words before it and those behind it.
fn place(alloc: Global, function: &TFunction, from: usize, to: usize) -> Result<Place, AllocError>
    ensures { IfOk result (λ p. p ≡ place_of from to function.now) }
{
    Ok(Place {
        name: function.name.copy(alloc)?,
        local: function.local,
        start: bytes_of(from)?,
        bytes: bytes_of(to.saturating_sub(from))?,
    })
}

// Appends the words of functions, and where each stands.
fn push_functions(
    alloc: Global,
    out: &mut Output,
    places: &mut Vec<Place>,
    typed: &Typed,
    functions: &[TFunction],
) -> Result<(), AllocError>
    requires laid_out { LaidOut typed.now.structs }
    requires objects { HaveObjects typed.now.structs functions.now }
    requires bytes { HaveBytes typed.now.structs }
    ensures { OnOk result (AreParts typed.now.structs functions.now out.old places.old.items out.new places.new.items) }
{
    for function in functions {
        let from = out.words.len();
        push_function(alloc, out, typed, function)?;
        places.push(place(alloc, function, from, out.words.len())?)?;
    }
    Ok(())
}

// The code of a unit whose frames are not too large.
fn code_of(alloc: Global, typed: &Typed) -> Result<UnitCode, AllocError>
    requires laid_out { LaidOut typed.now.structs }
    requires objects { HaveObjects typed.now.structs typed.now.functions }
    requires bytes { HaveBytes typed.now.structs }
    ensures { IfOk result (IsCodeOf typed.now) }
{
    let mut out = Output {
        words: Vec::new(alloc),
        relocs: Vec::new(alloc),
    };
    let mut functions = Vec::new(alloc);
    push_functions(
        alloc,
        &mut out,
        &mut functions,
        typed,
        typed.functions.as_slice(),
    )?;
    let Output { words, relocs } = out;
    Ok(UnitCode {
        words,
        functions,
        relocs,
    })
}

/// The code of a translation unit. Where jumps do not reach all of a function, which then has 2^25 words or more, memory is taken to be
/// short.
///
/// # Errors
/// `TooManyFunctions` exactly over 512 functions, and else `FrameTooLarge` exactly for the first function whose frame has more
/// than 262,144 bytes.
pub fn unit(alloc: Global, typed: &Typed) -> Result<UnitCode, PlanRefusal>
    requires laid_out { LaidOut typed.now.structs }
    requires objects { HaveObjects typed.now.structs typed.now.functions }
    requires bytes { HaveBytes typed.now.structs }

    // What is made is the unit's code.
    ensures found { IfOk result (IsCodeOf typed.now) }

    // What is refused has that first fault, unless memory ran out.
    ensures refused { IfErr result (λ e. (e ≡ PlanRefusal.NoMemory) ⊎ HasNoText typed.now e) }

    // A unit that has a fault is refused with it, unless memory runs out.
    ensures refuses { (fault : PlanRefusal) → HasNoText typed.now fault
        → MatchResult result (λ code. ⊥) (λ e. (e ≡ fault) ⊎ (e ≡ PlanRefusal.NoMemory)) }
{
    match frame_sizes(alloc, typed) {
        Ok(_) => {}
        Err(refusal) => return Err(refusal),
    }
    match code_of(alloc, typed) {
        Ok(code) => Ok(code),
        Err(_) => Err(PlanRefusal::NoMemory),
    }
}

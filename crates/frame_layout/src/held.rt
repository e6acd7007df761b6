//! What the slots of a function have to hold.

ghost use Rattle.std.specs.Prelude.{◌≡◌, length, ltb, IfOk};
ghost use Rattle.c_type_base.specs.Sizes.{AreObjects, IsObject};
ghost use Rattle.c_type_base.specs.Layout.{LaidOut};
ghost use Rattle.frame_layout.specs.Scopes as scope;
ghost use Rattle.frame_layout.specs.Parts as spec;

use crate::placed::Part;
use crate::scopes::outermost;
use c_type_base::{LocalInfo, StructInfo, TFunction, align_of, size_of};
use slot_safety::{Kind, classify};
use std::alloc::{AllocError, Global};

fn part_of(local: &LocalInfo, structs: &[StructInfo], kind: Kind, inner: bool) -> Part
    requires { IsObject structs.now local.now.ty }
    ensures { result ≡ spec.part_of structs.now local.now kind inner }
{
    Part {
        bytes: size_of(&local.ty, structs) as u32,
        align: align_of(&local.ty, structs),
        kind,
        inner,
    }
}

/// Neither a parameter nor declared by the outermost block.
fn is_inner(number: usize, params: u32, outer: bool) -> bool
    ensures { result ≡ scope.inner_by (ltb number params) outer }
{
    if number < params as usize {
        false
    } else {
        !outer
    }
}

#[tactic(auto, using(crate::proofs::PartTurns::parts_turn))]
fn collect(
    alloc: Global,
    locals: &[LocalInfo],
    params: u32,
    structs: &[StructInfo],
    kinds: &[Kind],
    outer: &[bool],
) -> Result<Vec<Part>, AllocError>
    requires kinds { length kinds.now ≡ length locals.now }
    requires outer { length outer.now ≡ length locals.now }
    requires objects { AreObjects structs.now locals.now }
    ensures { IfOk result (λ parts. parts.items ≡ spec.parts_by (spec.setting structs.now params) 0 locals.now kinds.now outer.now) }
{
    let mut parts = Vec::new(alloc);
    for (number, local) in locals.iter().enumerate() {
        let inner = is_inner(number, params, outer[number]);
        parts.push(part_of(local, structs, kinds[number], inner))?;
    }
    Ok(parts)
}

/// What each slot has to hold, in order.
pub fn parts(
    alloc: Global,
    function: &TFunction,
    structs: &[StructInfo],
) -> Result<Vec<Part>, AllocError>
    requires laid_out { LaidOut structs.now }
    requires objects { AreObjects structs.now function.now.locals }
    ensures value { IfOk result (λ parts. parts.items ≡ spec.parts structs.now function.now) }
    ensures positive { IfOk result (λ parts. spec.ArePositive parts.items) }
{
    let kinds = classify(alloc, function, structs)?;
    let outer = outermost(alloc, function)?;
    collect(
        alloc,
        function.locals.as_slice(),
        function.params,
        structs,
        kinds.as_slice(),
        outer.as_slice(),
    )
}

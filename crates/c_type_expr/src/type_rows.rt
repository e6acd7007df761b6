//! Types as they are written (C11 6.7.6).

ghost use Rattle.std.specs.Prelude.{◌≡◌, IfOk, Some, None};
ghost use Rattle.c_type_base.specs.declared.known.Written.TheVariants as written;
ghost use Rattle.c_type_expr.specs.Environment.{tag_number};
ghost use Rattle.c_type_expr.specs.Said as spec;
ghost use Rattle.c_type_expr.specs.Walked.{Walked};

use crate::walk::Walk;
use c_ast::{Name, Span};
use c_type_base::{StructInfo, Ty, Written, is_void};
use sqlite_items::Boxed;
use std::alloc::{AllocError, Global};

/// A pointer to a type.
pub fn pointer_to(
    walk: &mut Walk,
    alloc: Global,
    span: Span,
    target: Written,
) -> Result<Option<Written>, AllocError>
    ensures { IfOk result (λ w. Walked (spec.pointer_to span target) walk.old walk.new w) }
{
    match target {
        Written::Open(_) => {
            walk.ask(span, 15, false);
            Ok(None)
        }
        Written::Whole(target) => {
            walk.ask(span, 15, !is_void(&target));
            let target = Boxed::new(alloc, target)?;
            Ok(Some(Written::Whole(Ty::Pointer(target))))
        }
    }
}

/// An array of a type, with a length or without.
pub fn array_of(
    walk: &mut Walk,
    alloc: Global,
    span: Span,
    length: Option<u64>,
    element: Written,
) -> Result<Option<Written>, AllocError>
    ensures { IfOk result (λ w. Walked (spec.array_of span length element) walk.old walk.new w) }
{
    match element {
        Written::Open(_) => {
            walk.ask(span, 15, false);
            Ok(None)
        }
        Written::Whole(element) => match length {
            None => Ok(Some(open_array(walk, span, element))),
            Some(length) => Ok(Some(sized_array(walk, alloc, span, length, element)?)),
        },
    }
}

fn open_array(walk: &mut Walk, span: Span, element: Ty) -> Written
    ensures { Walked (spec.array_of span None (written.Whole element)) walk.old walk.new (Some result) }
{
    walk.ask_target(span, &element);
    Written::Open(element)
}

fn sized_array(
    walk: &mut Walk,
    alloc: Global,
    span: Span,
    length: u64,
    element: Ty,
) -> Result<Written, AllocError>
    ensures { IfOk result (λ w. Walked (spec.array_of span (Some length) (written.Whole element)) walk.old walk.new (Some w)) }
{
    walk.ask_target(span, &element);
    let element = Boxed::new(alloc, element)?;
    Ok(Written::Whole(Ty::Array(element, length)))
}

/// The number of a tag among those declared so far.
pub fn tag_number(structs: &[StructInfo], tag: &[u8]) -> Option<usize>
    ensures { result ≡ tag_number structs.now tag.now }
{
    structs.iter().position(|info| info.name.as_slice() == tag)
}

/// A struct by its tag; one that is not declared has the next number. More tags than a number can tell count as want of memory.
pub fn struct_tag(walk: &mut Walk, span: Span, tag: &Name) -> Result<Option<Written>, AllocError>
    ensures { IfOk result (λ w. Walked (spec.struct_tag span tag.now) walk.old walk.new w) }
{
    let number = match tag_number(walk.structs.as_slice(), tag.as_slice()) {
        Some(number) => number,
        None => {
            walk.ask(span, 9, false);
            walk.structs.len()
        }
    };
    let Ok(number) = u32::try_from(number) else {
        return Err(AllocError);
    };
    Ok(Some(Written::Whole(Ty::Struct(number))))
}

/// The type in a cast or behind `sizeof`, which has no brackets.
pub fn whole(walk: &mut Walk, span: Span, t: Written) -> Option<Ty>
    ensures { Walked (spec.whole span t) walk.old walk.new result }
{
    match t {
        Written::Whole(t) => Some(t),
        Written::Open(_) => {
            walk.ask(span, 15, false);
            None
        }
    }
}

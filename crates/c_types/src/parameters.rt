//! Parameters (C11 6.7.6.3).

ghost use Rattle.std.specs.Prelude.{◌≡◌, None, Some, if◌then◌else◌, IfOk, map};
ghost use Rattle.c_type_base.specs.declared.ty.Ty.{out-Ty};
ghost use Rattle.c_type_expr.specs.Faults.{broken, all_kept};
ghost use Rattle.c_type_expr.specs.Outcomes.{each};
ghost use Rattle.c_type_expr.specs.Sorted.{with_known};
ghost use Rattle.c_type_expr.specs.Walked.{Walked, env_of, blamed};
ghost use Rattle.c_types.specs.Functions as spec;
ghost use Rattle.c_types.specs.Inside.{rules_on};

use c_ast::{Decl, Span};
use c_type_base::{Ty, Written, is_complete, is_scalar};
use c_type_expr::{Walk, written};
use c_type_stmt::{bind_local, is_new, is_small};
use sqlite_items::{Boxed, Items};
use std::alloc::{AllocError, Global};

/// What stands in a parameter's type and has bytes: of an array its elements.
fn counted(t: &Written) -> &Ty
    ensures { result.now ≡ spec.counted t.now }
{
    match t {
        Written::Whole(t) => elements_or_all(t),
        Written::Open(element) => element,
    }
}

fn elements_or_all(t: &Ty) -> &Ty
    ensures { result.now ≡ spec.counted_level t.now (out-Ty t.now) }
{
    match t {
        Ty::Array(element, _) => element.get(),
        _ => t,
    }
}

/// An array parameter is a pointer.
fn adjusted(alloc: Global, t: Written) -> Result<Ty, AllocError>
    ensures { IfOk result (λ made. made ≡ spec.adjusted t) }
{
    match t {
        Written::Whole(t) => Ok(pointer_or_all(t)),
        Written::Open(element) => Ok(Ty::Pointer(Boxed::new(alloc, element)?)),
    }
}

fn pointer_or_all(t: Ty) -> Ty
    ensures { result ≡ spec.adjusted_level t (out-Ty t) }
{
    match t {
        Ty::Void => Ty::Void,
        Ty::Int(int) => Ty::Int(int),
        Ty::Pointer(target) => Ty::Pointer(target),
        Ty::Array(element, _) => Ty::Pointer(element),
        Ty::Struct(number) => Ty::Struct(number),
    }
}

/// Whether a parameter may have a name; a prototype's may have none.
fn is_new_parameter(walk: &Walk, defines: bool, name: &[u8]) -> bool
    ensures { result ≡ spec.is_new_parameter defines (env_of walk.now) name.now }
{
    match name {
        [] => true,
        _ => {
            if defines {
                is_new(walk, name)
            } else {
                walk.scopes.find_inner(name).is_none()
            }
        }
    }
}

/// Asks the rules on a parameter of a type. Whether all are kept.
#[tactic(auto, using(crate::proofs::ParameterLaws::blamed_then))]
fn ask_parameter(walk: &mut Walk, span: Span, new: bool, t: &Ty, small: bool) -> bool
    ensures kept { result ≡ all_kept (rules_on walk.old.structs new t.now small) }
    ensures blames { walk.new ≡ blamed walk.old (broken span (rules_on walk.old.structs new t.now small)) }
{
    let scalar = is_scalar(t);
    let complete = is_complete(t, walk.structs.as_slice());
    walk.ask_both(span, 10, new, 12, scalar);
    walk.ask_both(span, 15, complete, 17, small);
    new && scalar && complete && small
}

fn kept_type(kept: bool, t: Ty) -> Option<Ty>
    ensures { result ≡ (if kept then Some t else None) }
{
    if kept { Some(t) } else { None }
}

/// A parameter of a type, or of one that is not known. More than a number can tell count as want of memory.
fn declare_parameter(
    walk: &mut Walk,
    alloc: Global,
    defines: bool,
    d: &Decl,
    t: Option<Written>,
) -> Result<Option<Ty>, AllocError>
    ensures { IfOk result (λ k. Walked (spec.declares_parameter defines d.now t) walk.old walk.new k) }
{
    let Ok(number) = u32::try_from(walk.locals.len()) else {
        return Err(AllocError);
    };
    let new = is_new_parameter(walk, defines, d.name.as_slice());
    match t {
        None => {
            walk.ask(d.span, 10, new);
            bind_local(walk, alloc, number, &d.name, d.span, None)?;
            Ok(None)
        }
        Some(t) => {
            let small = is_small(counted(&t), walk.structs.as_slice());
            let t = adjusted(alloc, t)?;
            let kept = ask_parameter(walk, d.span, new, &t, small);
            bind_local(walk, alloc, number, &d.name, d.span, Some(&t))?;
            Ok(kept_type(kept, t))
        }
    }
}

/// A parameter: its type, and then its name.
fn parameter(
    walk: &mut Walk,
    alloc: Global,
    defines: bool,
    d: &Decl,
) -> Result<Option<Ty>, AllocError>
    ensures { IfOk result (λ k. Walked (spec.parameter defines d.now) walk.old walk.new k) }
{
    let t = written(walk, alloc, &d.ty, d.span)?;
    declare_parameter(walk, alloc, defines, d, t)
}

/// One more type, if all so far are known.
fn with_type(types: Option<Items<Ty>>, known: Option<Ty>) -> Result<Option<Items<Ty>>, AllocError>
    ensures { IfOk result (λ more. more ≡ with_known types known) }
{
    let Some(mut types) = types else {
        return Ok(None);
    };
    let Some(known) = known else {
        return Ok(None);
    };
    types.push(known)?;
    Ok(Some(types))
}

/// Parameters in a row. The error is want of memory.
pub fn parameters(
    walk: &mut Walk,
    alloc: Global,
    defines: bool,
    decls: &[Decl],
) -> Result<Option<Items<Ty>>, AllocError>
    ensures { IfOk result (λ ts. Walked (each (map (spec.parameter defines) decls.now)) walk.old walk.new ts) }
{
    let mut types = Some(Items::new(alloc));
    for d in decls {
        let known = parameter(walk, alloc, defines, d)?;
        types = with_type(types, known)?;
    }
    Ok(types)
}

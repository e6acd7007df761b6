//! `c ? a : b` (C11 6.5.15).

ghost use Rattle.std.specs.Prelude.{◌≡◌, IfOk};
ghost use Rattle.c_type_expr.specs.Operators as spec;
ghost use Rattle.c_type_base.specs.Types.{is_void};
ghost use Rattle.c_type_expr.specs.Walked.{Walked};

use crate::rows::compare::converted_as;
use crate::rows::operand::{Operand, operand_of};
use crate::walk::Walk;
use c_ast::{IntType, Span};
use c_type_base::{
    Constancy, Known, TNode, Ty, chosen, converted, copy_ty, is_null, is_void, plain, same_type,
    texpr, usual,
};
use std::alloc::{AllocError, Global};

fn with_arms(
    alloc: Global,
    span: Span,
    t: Ty,
    c: Known,
    a: Known,
    b: Known,
    constant: Constancy,
) -> Result<Known, AllocError>
    ensures { IfOk result (λ k. k ≡ spec.with_arms span t c a b constant) }
{
    let tree = texpr(alloc, span, t, TNode::Cond(c.tree, a.tree, b.tree))?;
    Ok(plain(tree, constant))
}

/// Arms of integers, both in one type.
fn integers(
    alloc: Global,
    span: Span,
    t: IntType,
    c: Known,
    a: Known,
    b: Known,
) -> Result<Known, AllocError>
    ensures { IfOk result (λ k. k ≡ spec.integer_arms span t c a b) }
{
    let a = converted(alloc, &Ty::Int(t), a)?;
    let b = converted(alloc, &Ty::Int(t), b)?;
    let constant = chosen(c.constant, a.constant, b.constant);
    with_arms(alloc, span, Ty::Int(t), c, a, b, constant)
}

/// Arms of one pointer type.
fn pointers(alloc: Global, span: Span, c: Known, a: Known, b: Known) -> Result<Known, AllocError>
    ensures { IfOk result (λ k. k ≡ spec.pointer_arms span c a b) }
{
    let ty = copy_ty(alloc, &a.tree.ty)?;
    with_arms(alloc, span, ty, c, a, b, Constancy::Varies)
}

/// Arms of which the first is the null constant.
fn null_first(alloc: Global, span: Span, c: Known, a: Known, b: Known) -> Result<Known, AllocError>
    ensures { IfOk result (λ k. k ≡ spec.null_first span c a b) }
{
    let a = converted_as(alloc, &b, a)?;
    let ty = copy_ty(alloc, &b.tree.ty)?;
    with_arms(alloc, span, ty, c, a, b, Constancy::Varies)
}

/// Arms of which the second is the null constant.
fn null_second(alloc: Global, span: Span, c: Known, a: Known, b: Known) -> Result<Known, AllocError>
    ensures { IfOk result (λ k. k ≡ spec.null_second span c a b) }
{
    let b = converted_as(alloc, &a, b)?;
    pointers(alloc, span, c, a, b)
}

/// Arms that are no values.
fn voids(
    walk: &mut Walk,
    alloc: Global,
    span: Span,
    c: Known,
    a: Known,
    b: Known,
) -> Result<Option<Known>, AllocError>
    ensures { IfOk result (λ k. Walked (spec.arms_of_void span c a b (is_void a.tree.ty) (is_void b.tree.ty)) walk.old walk.new k) }
{
    if is_void(&a.tree.ty) && is_void(&b.tree.ty) {
        Ok(Some(with_arms(alloc, span, Ty::Void, c, a, b, Constancy::Varies)?))
    } else {
        Ok(walk.misfit(span))
    }
}

/// The arms in their common type.
fn arms(
    walk: &mut Walk,
    alloc: Global,
    span: Span,
    c: Known,
    a: Known,
    b: Known,
) -> Result<Option<Known>, AllocError>
    ensures { IfOk result (λ k. Walked (spec.arms span c a b (spec.sort_of a) (spec.sort_of b)) walk.old walk.new k) }
{
    match operand_of(&a.tree.ty) {
        Operand::Integer(s) => match operand_of(&b.tree.ty) {
            Operand::Integer(t) => Ok(Some(integers(alloc, span, usual(s, t), c, a, b)?)),
            Operand::Points(_) => {
                walk.ask(span, 12, is_null(&a));
                Ok(Some(null_first(alloc, span, c, a, b)?))
            }
            Operand::Neither => voids(walk, alloc, span, c, a, b),
        },
        Operand::Points(target) => match operand_of(&b.tree.ty) {
            Operand::Points(other) => {
                walk.ask(span, 12, same_type(target, other));
                Ok(Some(pointers(alloc, span, c, a, b)?))
            }
            Operand::Integer(_) => {
                walk.ask(span, 12, is_null(&b));
                Ok(Some(null_second(alloc, span, c, a, b)?))
            }
            Operand::Neither => voids(walk, alloc, span, c, a, b),
        },
        Operand::Neither => voids(walk, alloc, span, c, a, b),
    }
}

/// `c ? a : b`, of values
pub fn cond(
    walk: &mut Walk,
    alloc: Global,
    span: Span,
    c: Known,
    a: Known,
    b: Known,
) -> Result<Option<Known>, AllocError>
    ensures { IfOk result (λ k. Walked (spec.cond_judged span c a b) walk.old walk.new k) }
{
    match operand_of(&c.tree.ty) {
        Operand::Neither => Ok(walk.misfit(span)),
        _ => arms(walk, alloc, span, c, a, b),
    }
}

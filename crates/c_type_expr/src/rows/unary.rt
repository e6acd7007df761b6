//! Unary operators, casts and `sizeof` (C11 6.5.3, 6.5.4).

ghost use Rattle.std.specs.Prelude.{◌≡◌, IfOk};
ghost use Rattle.c_type_expr.specs.Expressions as spec;
ghost use Rattle.c_type_expr.specs.Operators as table;
ghost use Rattle.c_type_expr.specs.Walked.{Walked};

use crate::rows::operand::{Operand, operand_of};
use crate::walk::Walk;
use c_ast::{IntType, Span, UnaryOperator};
use c_type_base::{
    Constancy, Fixed, Known, TNode, Ty, constant_of_one, converted, copy_ty, designates, int_of,
    is_complete, is_integer, is_null, is_pointer, is_value, is_void, plain, promoted, texpr, value,
    wrapped, wrapped_size,
};
use sqlite_items::Boxed;
use std::alloc::{AllocError, Global};

/// `& e`
fn address(
    walk: &mut Walk,
    alloc: Global,
    span: Span,
    e: Known,
) -> Result<Option<Known>, AllocError>
    ensures { IfOk result (λ k. Walked (spec.address_row span e) walk.old walk.new k) }
{
    walk.ask(span, 11, e.lvalue);
    Ok(Some(address_of(alloc, span, e)?))
}

fn address_of(alloc: Global, span: Span, e: Known) -> Result<Known, AllocError>
    ensures { IfOk result (λ k. k ≡ spec.address_known span e) }
{
    let ty = copy_ty(alloc, &e.tree.ty)?;
    let ty = Ty::Pointer(Boxed::new(alloc, ty)?);
    let fixed = e.fixed;
    let tree = texpr(
        alloc,
        span,
        ty,
        TNode::Unary(UnaryOperator::AddressOf, e.tree),
    )?;
    Ok(Known {
        tree,
        lvalue: false,
        constant: Constancy::Varies,
        fixed,
        path: false,
    })
}

/// `* e`, of a value
fn dereferenced(
    walk: &mut Walk,
    alloc: Global,
    span: Span,
    e: Known,
) -> Result<Option<Known>, AllocError>
    ensures { IfOk result (λ k. Walked (spec.target_row span e (table.sort_of e)) walk.old walk.new k) }
{
    match operand_of(&e.tree.ty) {
        Operand::Points(target) => {
            walk.ask_target(span, target);
            let ty = copy_ty(alloc, target)?;
            let tree = texpr(
                alloc,
                span,
                ty,
                TNode::Unary(UnaryOperator::Dereference, e.tree),
            )?;
            Ok(Some(designates(tree, None)))
        }
        _ => Ok(walk.misfit(span)),
    }
}

/// `! e`, of a value
fn negation(
    walk: &mut Walk,
    alloc: Global,
    span: Span,
    e: Known,
) -> Result<Option<Known>, AllocError>
    ensures { IfOk result (λ k. Walked (table.not_row span e (table.sort_of e)) walk.old walk.new k) }
{
    match operand_of(&e.tree.ty) {
        Operand::Integer(t) => {
            let constant = constant_of_one(UnaryOperator::Not, t, e.constant);
            Ok(Some(negated(alloc, span, e, constant)?))
        }
        Operand::Points(_) => Ok(Some(negated(alloc, span, e, Constancy::Varies)?)),
        Operand::Neither => Ok(walk.misfit(span)),
    }
}

fn negated(alloc: Global, span: Span, e: Known, constant: Constancy) -> Result<Known, AllocError>
    ensures { IfOk result (λ k. k ≡ table.denied span e constant) }
{
    let tree = texpr(
        alloc,
        span,
        Ty::Int(IntType::Int),
        TNode::Unary(UnaryOperator::Not, e.tree),
    )?;
    Ok(plain(tree, constant))
}

/// `~ + -`, of a value
fn signed(
    walk: &mut Walk,
    alloc: Global,
    operator: UnaryOperator,
    span: Span,
    e: Known,
) -> Result<Option<Known>, AllocError>
    ensures { IfOk result (λ k. Walked (table.signed_row operator span e (table.sort_of e)) walk.old walk.new k) }
{
    match operand_of(&e.tree.ty) {
        Operand::Integer(t) => Ok(Some(in_promoted(alloc, operator, span, promoted(t), e)?)),
        _ => Ok(walk.misfit(span)),
    }
}

fn in_promoted(
    alloc: Global,
    operator: UnaryOperator,
    span: Span,
    t: IntType,
    e: Known,
) -> Result<Known, AllocError>
    ensures { IfOk result (λ k. k ≡ table.signed_known operator span t e) }
{
    let e = converted(alloc, &Ty::Int(t), e)?;
    let constant = constant_of_one(operator, t, e.constant);
    let tree = texpr(alloc, span, Ty::Int(t), TNode::Unary(operator, e.tree))?;
    Ok(plain(tree, constant))
}

/// A unary operator.
pub fn unary(
    walk: &mut Walk,
    alloc: Global,
    operator: UnaryOperator,
    span: Span,
    e: Known,
) -> Result<Option<Known>, AllocError>
    ensures { IfOk result (λ k. Walked (spec.unary_row operator span e) walk.old walk.new k) }
{
    match operator {
        UnaryOperator::AddressOf => address(walk, alloc, span, e),
        UnaryOperator::Dereference => {
            let e = value(alloc, e)?;
            dereferenced(walk, alloc, span, e)
        }
        UnaryOperator::Not => {
            let e = value(alloc, e)?;
            negation(walk, alloc, span, e)
        }
        _ => {
            let e = value(alloc, e)?;
            signed(walk, alloc, operator, span, e)
        }
    }
}

/// Whether a value may be cast to a type.
fn castable(t: &Ty, k: &Known) -> bool
    ensures { result ≡ spec.castable t.now k.now }
{
    is_void(t)
        || is_integer(t) && is_integer(&k.tree.ty)
        || is_pointer(t) && (is_pointer(&k.tree.ty) || is_null(k))
}

/// The null constant in a pointer's type points to the null block.
fn cast_fixed(t: &Ty, k: &Known) -> Option<Fixed>
    ensures { result ≡ spec.cast_fixed t.now k.now }
{
    if !is_pointer(t) {
        return None;
    }
    if is_null(k) {
        return Some(Fixed {
            target: None,
            offset: 0,
        });
    }
    k.fixed
}

/// A cast of a value.
pub fn cast(
    walk: &mut Walk,
    alloc: Global,
    span: Span,
    t: Ty,
    k: Known,
) -> Result<Option<Known>, AllocError>
    ensures { IfOk result (λ k'. Walked (spec.cast_row span t k) walk.old walk.new k') }
{
    walk.ask(span, 12, castable(&t, &k));
    Ok(Some(cast_to(alloc, span, t, k)?))
}

fn cast_to(alloc: Global, span: Span, t: Ty, k: Known) -> Result<Known, AllocError>
    ensures { IfOk result (λ k'. k' ≡ spec.cast_known span t k) }
{
    let constant = wrapped(int_of(&t), k.constant);
    let fixed = cast_fixed(&t, &k);
    let named = copy_ty(alloc, &t)?;
    let tree = texpr(alloc, span, t, TNode::Cast(named, k.tree))?;
    Ok(Known {
        tree,
        lvalue: false,
        constant,
        fixed,
        path: false,
    })
}

/// `sizeof e`
pub fn sizeof_expr(
    walk: &mut Walk,
    alloc: Global,
    span: Span,
    e: Known,
) -> Result<Option<Known>, AllocError>
    ensures { IfOk result (λ k. Walked (spec.sizeof_row span e) walk.old walk.new k) }
{
    let whole = is_value(&e);
    let complete = is_complete(&e.tree.ty, walk.structs.as_slice());
    let bytes = wrapped_size(&e.tree.ty, walk.structs.as_slice());
    walk.ask_both(span, 12, whole, 15, complete);
    if whole && complete {
        Ok(Some(size_known(alloc, span, TNode::SizeofExpr(e.tree), bytes)?))
    } else {
        Ok(None)
    }
}

/// `sizeof ( type )`
pub fn sizeof_type(
    walk: &mut Walk,
    alloc: Global,
    span: Span,
    t: Ty,
) -> Result<Option<Known>, AllocError>
    ensures { IfOk result (λ k. Walked (spec.sizeof_type span t) walk.old walk.new k) }
{
    let complete = is_complete(&t, walk.structs.as_slice());
    let bytes = wrapped_size(&t, walk.structs.as_slice());
    walk.ask(span, 15, complete);
    if complete {
        Ok(Some(size_known(alloc, span, TNode::SizeofName(t), bytes)?))
    } else {
        Ok(None)
    }
}

fn size_known(alloc: Global, span: Span, node: TNode, bytes: u64) -> Result<Known, AllocError>
    ensures { IfOk result (λ k. k ≡ spec.size_known span node bytes) }
{
    let tree = texpr(alloc, span, Ty::Int(IntType::ULong), node)?;
    Ok(plain(tree, Constancy::Is(bytes)))
}

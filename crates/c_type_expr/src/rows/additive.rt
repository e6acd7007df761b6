//! `+` and `-` (C11 6.5.6).

ghost use Rattle.std.specs.Prelude.{◌≡◌, IfOk};
ghost use Rattle.c_type_base.specs.declared.expr.TNode.TheVariants as node;
ghost use Rattle.c_type_expr.specs.Operators as spec;
ghost use Rattle.c_type_expr.specs.Walked.{Walked};

use crate::address::moved_by_elements;
use crate::rows::binary::on_integers;
use crate::rows::operand::{Operand, operand_of};
use crate::walk::Walk;
use c_ast::{BinaryOperator, IntType, Span};
use c_type_base::{Constancy, Fixed, Known, TNode, Ty, copy_ty, plain, same_type, texpr, usual};
use std::alloc::{AllocError, Global};

/// A pointer that is moved: its type, the address that it is, and the sum that gives it.
fn pointer_moved(
    alloc: Global,
    operator: BinaryOperator,
    span: Span,
    ty: Ty,
    fixed: Option<Fixed>,
    a: Known,
    b: Known,
) -> Result<Known, AllocError>
    ensures { IfOk result (λ k. k ≡ spec.pointer_moved span ty fixed (node.Binary operator a.tree b.tree)) }
{
    let tree = texpr(alloc, span, ty, TNode::Binary(operator, a.tree, b.tree))?;
    Ok(Known {
        tree,
        lvalue: false,
        constant: Constancy::Varies,
        fixed,
        path: false,
    })
}

/// `a + b`
pub fn sum(
    walk: &mut Walk,
    alloc: Global,
    span: Span,
    a: Known,
    b: Known,
) -> Result<Option<Known>, AllocError>
    ensures { IfOk result (λ k. Walked (spec.sum span a b (spec.sort_of a) (spec.sort_of b)) walk.old walk.new k) }
{
    match operand_of(&a.tree.ty) {
        Operand::Integer(s) => match operand_of(&b.tree.ty) {
            Operand::Integer(t) => {
                let t = usual(s, t);
                Ok(Some(on_integers(alloc, BinaryOperator::Add, span, t, t, a, b)?))
            }
            Operand::Points(target) => {
                let fixed = moved_by_elements(
                    walk.structs.as_slice(),
                    false,
                    target,
                    b.fixed,
                    a.constant,
                );
                walk.ask_target(span, target);
                let ty = copy_ty(alloc, &b.tree.ty)?;
                Ok(Some(pointer_moved(alloc, BinaryOperator::Add, span, ty, fixed, a, b)?))
            }
            Operand::Neither => Ok(walk.misfit(span)),
        },
        Operand::Points(target) => match operand_of(&b.tree.ty) {
            Operand::Integer(_) => {
                let fixed = moved_by_elements(
                    walk.structs.as_slice(),
                    false,
                    target,
                    a.fixed,
                    b.constant,
                );
                walk.ask_target(span, target);
                let ty = copy_ty(alloc, &a.tree.ty)?;
                Ok(Some(pointer_moved(alloc, BinaryOperator::Add, span, ty, fixed, a, b)?))
            }
            _ => Ok(walk.misfit(span)),
        },
        Operand::Neither => Ok(walk.misfit(span)),
    }
}

/// `a - b`
pub fn difference(
    walk: &mut Walk,
    alloc: Global,
    span: Span,
    a: Known,
    b: Known,
) -> Result<Option<Known>, AllocError>
    ensures { IfOk result (λ k. Walked (spec.difference span a b (spec.sort_of a) (spec.sort_of b)) walk.old walk.new k) }
{
    match operand_of(&a.tree.ty) {
        Operand::Integer(s) => match operand_of(&b.tree.ty) {
            Operand::Integer(t) => {
                let t = usual(s, t);
                Ok(Some(on_integers(alloc, BinaryOperator::Subtract, span, t, t, a, b)?))
            }
            _ => Ok(walk.misfit(span)),
        },
        Operand::Points(target) => match operand_of(&b.tree.ty) {
            Operand::Integer(_) => {
                let fixed = moved_by_elements(
                    walk.structs.as_slice(),
                    true,
                    target,
                    a.fixed,
                    b.constant,
                );
                walk.ask_target(span, target);
                let ty = copy_ty(alloc, &a.tree.ty)?;
                Ok(Some(pointer_moved(alloc, BinaryOperator::Subtract, span, ty, fixed, a, b)?))
            }
            Operand::Points(other) => {
                walk.ask_then_target(span, 12, same_type(target, other), target);
                Ok(Some(distance(alloc, span, a, b)?))
            }
            Operand::Neither => Ok(walk.misfit(span)),
        },
        Operand::Neither => Ok(walk.misfit(span)),
    }
}

/// A long that is no constant.
fn distance(alloc: Global, span: Span, a: Known, b: Known) -> Result<Known, AllocError>
    ensures { IfOk result (λ k. k ≡ spec.distance span a b) }
{
    let node = TNode::Binary(BinaryOperator::Subtract, a.tree, b.tree);
    let tree = texpr(alloc, span, Ty::Int(IntType::Long), node)?;
    Ok(plain(tree, Constancy::Varies))
}

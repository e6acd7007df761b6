//! Assignment, `++` and `--` (C11 6.5.16, 6.5.2.4, 6.5.3.1).

ghost use Rattle.std.specs.Prelude.{◌≡◌, IfOk};
ghost use Rattle.c_type_expr.specs.Expressions as spec;
ghost use Rattle.c_type_expr.specs.Operators.{sort_of};
ghost use Rattle.c_type_expr.specs.Walked.{Walked};

use crate::rows::compare::converted_as;
use crate::rows::operand::{Operand, operand_of};
use crate::walk::Walk;
use c_ast::{AssignOperator, IntType, Span, Step};
use c_type_base::{
    Constancy, Known, TNode, Ty, assignable, converted, copy_ty, is_changeable, plain, promoted,
    texpr, usual, value,
};
use std::alloc::{AllocError, Global};

/// The left side with what is assigned to it.
fn assigned(
    alloc: Global,
    operator: Option<AssignOperator>,
    span: Span,
    a: Known,
    b: Known,
) -> Result<Known, AllocError>
    ensures { IfOk result (λ k. k ≡ spec.assigned operator span a b) }
{
    let ty = copy_ty(alloc, &a.tree.ty)?;
    let tree = texpr(alloc, span, ty, TNode::Assign(operator, a.tree, b.tree))?;
    Ok(plain(tree, Constancy::Varies))
}

/// `a = b`, of a value on the right
fn simple(
    walk: &mut Walk,
    alloc: Global,
    span: Span,
    a: Known,
    b: Known,
) -> Result<Option<Known>, AllocError>
    ensures { IfOk result (λ k. Walked (spec.simple_row span a b) walk.old walk.new k) }
{
    walk.ask_both(span, 11, is_changeable(&a), 12, assignable(&a.tree.ty, &b));
    let b = converted_as(alloc, &a, b)?;
    Ok(Some(assigned(alloc, None, span, a, b)?))
}

/// The type of the right side, where the left side is of the other.
fn right_type(operator: AssignOperator, s: IntType, t: IntType) -> IntType
    ensures { result ≡ spec.right_type (spec.binary_of operator) s t }
{
    match operator {
        AssignOperator::ShiftLeft => promoted(t),
        AssignOperator::ShiftRight => promoted(t),
        _ => usual(s, t),
    }
}

fn moves(operator: AssignOperator) -> bool
    ensures { result ≡ spec.moves operator }
{
    match operator {
        AssignOperator::Add => true,
        AssignOperator::Subtract => true,
        _ => false,
    }
}

/// A compound assignment, of a value on the right
fn compound(
    walk: &mut Walk,
    alloc: Global,
    operator: AssignOperator,
    span: Span,
    a: Known,
    b: Known,
) -> Result<Option<Known>, AllocError>
    ensures { IfOk result (λ k. Walked (spec.compound_row operator span a b (sort_of a) (sort_of b)) walk.old walk.new k) }
{
    let changeable = is_changeable(&a);
    match operand_of(&a.tree.ty) {
        Operand::Integer(s) => match operand_of(&b.tree.ty) {
            Operand::Integer(t) => {
                walk.ask(span, 11, changeable);
                let t = right_type(operator, s, t);
                let b = converted(alloc, &Ty::Int(t), b)?;
                Ok(Some(assigned(alloc, Some(operator), span, a, b)?))
            }
            _ => Ok(walk.unchangeable(span, changeable)),
        },
        Operand::Points(target) => match operand_of(&b.tree.ty) {
            Operand::Integer(_) => {
                walk.ask_moved(span, changeable, moves(operator), target);
                Ok(Some(assigned(alloc, Some(operator), span, a, b)?))
            }
            _ => Ok(walk.unchangeable(span, changeable)),
        },
        Operand::Neither => Ok(walk.unchangeable(span, changeable)),
    }
}

/// An assignment.
pub fn assign(
    walk: &mut Walk,
    alloc: Global,
    operator: Option<AssignOperator>,
    span: Span,
    a: Known,
    b: Known,
) -> Result<Option<Known>, AllocError>
    ensures { IfOk result (λ k. Walked (spec.assign_row operator span a b) walk.old walk.new k) }
{
    let b = value(alloc, b)?;
    match operator {
        None => simple(walk, alloc, span, a, b),
        Some(operator) => compound(walk, alloc, operator, span, a, b),
    }
}

fn stepped(alloc: Global, step: Step, span: Span, e: Known) -> Result<Known, AllocError>
    ensures { IfOk result (λ k. k ≡ spec.stepped step span e) }
{
    let ty = copy_ty(alloc, &e.tree.ty)?;
    let tree = texpr(alloc, span, ty, TNode::Step(step, e.tree))?;
    Ok(plain(tree, Constancy::Varies))
}

/// `++` or `--`
pub fn step(
    walk: &mut Walk,
    alloc: Global,
    step: Step,
    span: Span,
    e: Known,
) -> Result<Option<Known>, AllocError>
    ensures { IfOk result (λ k. Walked (spec.step_row step span e (sort_of e)) walk.old walk.new k) }
{
    let changeable = is_changeable(&e);
    match operand_of(&e.tree.ty) {
        Operand::Integer(_) => {
            walk.ask(span, 11, changeable);
            Ok(Some(stepped(alloc, step, span, e)?))
        }
        Operand::Points(target) => {
            walk.ask_then_target(span, 11, changeable, target);
            Ok(Some(stepped(alloc, step, span, e)?))
        }
        Operand::Neither => Ok(walk.unchangeable(span, changeable)),
    }
}

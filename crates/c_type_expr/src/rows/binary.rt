//! The operators on two values.

ghost use Rattle.std.specs.Prelude.{◌≡◌, IfOk};
ghost use Rattle.c_type_expr.specs.Operators as spec;
ghost use Rattle.c_type_expr.specs.Walked.{Walked};

use crate::rows::additive::{difference, sum};
use crate::rows::compare::{equality, logical, ordering};
use crate::rows::operand::{Operand, operand_of};
use crate::walk::Walk;
use c_ast::{BinaryOperator, IntType, Span};
use c_type_base::{Known, TNode, Ty, constant_of, converted, plain, promoted, texpr, usual};
use std::alloc::{AllocError, Global};

/// Two integers, both in one type, and the result in one.
pub fn on_integers(
    alloc: Global,
    operator: BinaryOperator,
    span: Span,
    t: IntType,
    outcome: IntType,
    a: Known,
    b: Known,
) -> Result<Known, AllocError>
    ensures { IfOk result (λ k. k ≡ spec.on_integers operator span t outcome a b) }
{
    let ty = Ty::Int(t);
    let a = converted(alloc, &ty, a)?;
    let b = converted(alloc, &ty, b)?;
    let constant = constant_of(operator, t, a.constant, b.constant);
    let tree = texpr(
        alloc,
        span,
        Ty::Int(outcome),
        TNode::Binary(operator, a.tree, b.tree),
    )?;
    Ok(plain(tree, constant))
}

/// `* / % & ^ |`
pub fn arithmetic(
    walk: &mut Walk,
    alloc: Global,
    operator: BinaryOperator,
    span: Span,
    a: Known,
    b: Known,
) -> Result<Option<Known>, AllocError>
    ensures { IfOk result (λ k. Walked (spec.arithmetic operator span a b (spec.sort_of a) (spec.sort_of b)) walk.old walk.new k) }
{
    match operand_of(&a.tree.ty) {
        Operand::Integer(s) => match operand_of(&b.tree.ty) {
            Operand::Integer(t) => {
                let t = usual(s, t);
                Ok(Some(on_integers(alloc, operator, span, t, t, a, b)?))
            }
            _ => Ok(walk.misfit(span)),
        },
        _ => Ok(walk.misfit(span)),
    }
}

/// `<< >>`: each is promoted by itself.
pub fn shift(
    walk: &mut Walk,
    alloc: Global,
    operator: BinaryOperator,
    span: Span,
    a: Known,
    b: Known,
) -> Result<Option<Known>, AllocError>
    ensures { IfOk result (λ k. Walked (spec.shift operator span a b (spec.sort_of a) (spec.sort_of b)) walk.old walk.new k) }
{
    match operand_of(&a.tree.ty) {
        Operand::Integer(s) => match operand_of(&b.tree.ty) {
            Operand::Integer(t) => Ok(Some(shifted(
                alloc,
                operator,
                span,
                promoted(s),
                promoted(t),
                a,
                b,
            )?)),
            _ => Ok(walk.misfit(span)),
        },
        _ => Ok(walk.misfit(span)),
    }
}

/// Two integers, each in a type of its own, and the result in the first.
fn shifted(
    alloc: Global,
    operator: BinaryOperator,
    span: Span,
    s: IntType,
    t: IntType,
    a: Known,
    b: Known,
) -> Result<Known, AllocError>
    ensures { IfOk result (λ k. k ≡ spec.shifted operator span s t a b) }
{
    let a = converted(alloc, &Ty::Int(s), a)?;
    let b = converted(alloc, &Ty::Int(t), b)?;
    let constant = constant_of(operator, s, a.constant, b.constant);
    let tree = texpr(
        alloc,
        span,
        Ty::Int(s),
        TNode::Binary(operator, a.tree, b.tree),
    )?;
    Ok(plain(tree, constant))
}

/// An operator on two values.
pub fn binary(
    walk: &mut Walk,
    alloc: Global,
    operator: BinaryOperator,
    span: Span,
    a: Known,
    b: Known,
) -> Result<Option<Known>, AllocError>
    ensures { IfOk result (λ k. Walked (spec.binary_judged operator span a b) walk.old walk.new k) }
{
    match operator {
        BinaryOperator::Add => sum(walk, alloc, span, a, b),
        BinaryOperator::Subtract => difference(walk, alloc, span, a, b),
        BinaryOperator::ShiftLeft | BinaryOperator::ShiftRight => {
            shift(walk, alloc, operator, span, a, b)
        }
        BinaryOperator::Less
        | BinaryOperator::Greater
        | BinaryOperator::LessEqual
        | BinaryOperator::GreaterEqual => ordering(walk, alloc, operator, span, a, b),
        BinaryOperator::Equal | BinaryOperator::NotEqual => {
            equality(walk, alloc, operator, span, a, b)
        }
        BinaryOperator::And | BinaryOperator::Or => logical(walk, alloc, operator, span, a, b),
        _ => arithmetic(walk, alloc, operator, span, a, b),
    }
}

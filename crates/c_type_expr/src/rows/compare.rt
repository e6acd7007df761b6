//! Operators that give an int: comparisons, `&&` and `||` (C11 6.5.8, 6.5.9, 6.5.13, 6.5.14).

ghost use Rattle.std.specs.Prelude.{◌≡◌, IfOk};
ghost use Rattle.c_type_expr.specs.Operators as spec;
ghost use Rattle.c_type_expr.specs.Walked.{Walked};

use crate::rows::binary::on_integers;
use crate::rows::operand::{Operand, operand_of};
use crate::walk::Walk;
use c_ast::{BinaryOperator, IntType, Span};
use c_type_base::{
    Constancy, Known, TNode, Ty, constant_of, converted, is_null, plain, same_type, texpr, usual,
};
use std::alloc::{AllocError, Global};

/// Two values as they are, and an int.
fn compares(
    alloc: Global,
    operator: BinaryOperator,
    span: Span,
    a: Known,
    b: Known,
    constant: Constancy,
) -> Result<Known, AllocError>
    ensures { IfOk result (λ k. k ≡ spec.compares operator span a b constant) }
{
    let node = TNode::Binary(operator, a.tree, b.tree);
    let tree = texpr(alloc, span, Ty::Int(IntType::Int), node)?;
    Ok(plain(tree, constant))
}

/// `< > <= >=`
pub fn ordering(
    walk: &mut Walk,
    alloc: Global,
    operator: BinaryOperator,
    span: Span,
    a: Known,
    b: Known,
) -> Result<Option<Known>, AllocError>
    ensures { IfOk result (λ k. Walked (spec.ordering operator span a b (spec.sort_of a) (spec.sort_of b)) walk.old walk.new k) }
{
    match operand_of(&a.tree.ty) {
        Operand::Integer(s) => match operand_of(&b.tree.ty) {
            Operand::Integer(t) => {
                let t = usual(s, t);
                Ok(Some(on_integers(alloc, operator, span, t, IntType::Int, a, b)?))
            }
            _ => Ok(walk.misfit(span)),
        },
        Operand::Points(target) => match operand_of(&b.tree.ty) {
            Operand::Points(other) => {
                walk.ask(span, 12, same_type(target, other));
                Ok(Some(compares(alloc, operator, span, a, b, Constancy::Varies)?))
            }
            _ => Ok(walk.misfit(span)),
        },
        Operand::Neither => Ok(walk.misfit(span)),
    }
}

/// A value in the type of another.
pub fn converted_as(alloc: Global, a: &Known, b: Known) -> Result<Known, AllocError>
    ensures { IfOk result (λ k. k ≡ spec.converted_as a.now b) }
{
    converted(alloc, &a.tree.ty, b)
}

/// `== !=`: the null constant has the pointer's type.
pub fn equality(
    walk: &mut Walk,
    alloc: Global,
    operator: BinaryOperator,
    span: Span,
    a: Known,
    b: Known,
) -> Result<Option<Known>, AllocError>
    ensures { IfOk result (λ k. Walked (spec.equality operator span a b (spec.sort_of a) (spec.sort_of b)) walk.old walk.new k) }
{
    match operand_of(&a.tree.ty) {
        Operand::Integer(s) => match operand_of(&b.tree.ty) {
            Operand::Integer(t) => {
                let t = usual(s, t);
                Ok(Some(on_integers(alloc, operator, span, t, IntType::Int, a, b)?))
            }
            Operand::Points(_) => {
                walk.ask(span, 12, is_null(&a));
                let a = converted_as(alloc, &b, a)?;
                Ok(Some(compares(alloc, operator, span, a, b, Constancy::Varies)?))
            }
            Operand::Neither => Ok(walk.misfit(span)),
        },
        Operand::Points(target) => match operand_of(&b.tree.ty) {
            Operand::Points(other) => {
                walk.ask(span, 12, same_type(target, other));
                Ok(Some(compares(alloc, operator, span, a, b, Constancy::Varies)?))
            }
            Operand::Integer(_) => {
                walk.ask(span, 12, is_null(&b));
                let b = converted_as(alloc, &a, b)?;
                Ok(Some(compares(alloc, operator, span, a, b, Constancy::Varies)?))
            }
            Operand::Neither => Ok(walk.misfit(span)),
        },
        Operand::Neither => Ok(walk.misfit(span)),
    }
}

/// `&& ||`: scalars.
pub fn logical(
    walk: &mut Walk,
    alloc: Global,
    operator: BinaryOperator,
    span: Span,
    a: Known,
    b: Known,
) -> Result<Option<Known>, AllocError>
    ensures { IfOk result (λ k. Walked (spec.logical operator span a b (spec.sort_of a) (spec.sort_of b)) walk.old walk.new k) }
{
    match operand_of(&a.tree.ty) {
        Operand::Neither => Ok(walk.misfit(span)),
        Operand::Integer(_) => match operand_of(&b.tree.ty) {
            Operand::Neither => Ok(walk.misfit(span)),
            Operand::Integer(_) => {
                let constant = constant_of(operator, IntType::ULong, a.constant, b.constant);
                Ok(Some(compares(alloc, operator, span, a, b, constant)?))
            }
            Operand::Points(_) => Ok(Some(compares(
                alloc,
                operator,
                span,
                a,
                b,
                Constancy::Varies,
            )?)),
        },
        Operand::Points(_) => match operand_of(&b.tree.ty) {
            Operand::Neither => Ok(walk.misfit(span)),
            _ => Ok(Some(compares(alloc, operator, span, a, b, Constancy::Varies)?)),
        },
    }
}

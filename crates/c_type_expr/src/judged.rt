//! The walk over expressions (C11 6.5), and over the types that are written in them (C11 6.7.6).

ghost use Rattle.std.specs.Prelude.{◌≡◌, IfOk, map};
ghost use Rattle.c_ast.specs.Tree.{expr};
ghost use Rattle.c_type_expr.specs.Expressions as spec;
ghost use Rattle.c_type_expr.specs.Outcomes.{each, on};
ghost use Rattle.c_type_expr.specs.Postfix.{argument};
ghost use Rattle.c_type_expr.specs.Said as said;
ghost use Rattle.c_type_expr.specs.Sorted.{listed_items};
ghost use Rattle.c_type_expr.specs.Walked.{Walked};

use crate::length::length_on;
use crate::parts::{
    array_on, arrow_on, assign_on, binary_on, call_on, cast_on, cond_on, index_on, member_on,
    not_called, open_on, parentheses_on, pointer_on, sizeof_on, sizeof_type_on, step_on, unary_on,
    whole_on, with_value,
};
use crate::rows::call::function_named;
use crate::rows::leaf::{constant, text, variable};
use crate::type_rows::struct_tag;
use crate::walk::Walk;
use c_ast::{CType, Expr, Node, Span};
use c_type_base::{Known, Ty, Written, value};
use std::alloc::{AllocError, Global};

/// What is judged of an expression. The error is want of memory.
#[cycle(expression)]
pub fn expression(walk: &mut Walk, alloc: Global, e: &Expr) -> Result<Option<Known>, AllocError>
    ensures { IfOk result (λ k. Walked (spec.expression e.now).judged walk.old walk.new k) }
{
    node(walk, alloc, e.span, e.node.get())
}

/// The value of an expression. The error is want of memory.
#[tactic(auto, using(crate::proofs::ArmLaws::arm_value_none, crate::proofs::ArmLaws::arm_value))]
pub fn judged_value(walk: &mut Walk, alloc: Global, e: &Expr) -> Result<Option<Known>, AllocError>
    ensures { IfOk result (λ k. Walked (spec.judged_value e.now) walk.old walk.new k) }
{
    match expression(walk, alloc, e)? {
        None => Ok(None),
        Some(k) => Ok(Some(value(alloc, k)?)),
    }
}

/// What an expression is, by its outermost operator.
#[cycle(expression)]
#[tactic(auto, using(crate::proofs::ArmLaws::arm_constant, crate::proofs::ArmLaws::arm_text, crate::proofs::ArmLaws::arm_variable, crate::proofs::ArmLaws::arm_paren, crate::proofs::ArmLaws::arm_sizeof, crate::proofs::ArmLaws::arm_sizeof_name))]
fn node(walk: &mut Walk, alloc: Global, span: Span, n: &Node) -> Result<Option<Known>, AllocError>
    ensures { IfOk result (λ k. Walked (spec.expression (expr span n.now)).judged walk.old walk.new k) }
{
    match n {
        Node::Constant(n, t) => Ok(Some(constant(alloc, span, *n, *t)?)),
        Node::Text(bytes) => text(walk, alloc, span, bytes),
        Node::Variable(name) => variable(walk, alloc, span, name),
        Node::Paren(e) => {
            let e = expression(walk, alloc, e)?;
            parentheses_on(alloc, span, e)
        }
        Node::Unary(operator, e) => {
            let e = expression(walk, alloc, e)?;
            unary_on(walk, alloc, *operator, span, e)
        }
        Node::Binary(operator, a, b) => {
            let a = expression(walk, alloc, a)?;
            let b = expression(walk, alloc, b)?;
            binary_on(walk, alloc, *operator, span, a, b)
        }
        Node::Assign(operator, a, b) => {
            let a = expression(walk, alloc, a)?;
            let b = expression(walk, alloc, b)?;
            assign_on(walk, alloc, *operator, span, a, b)
        }
        Node::Cond(c, a, b) => {
            let c = expression(walk, alloc, c)?;
            let a = expression(walk, alloc, a)?;
            let b = expression(walk, alloc, b)?;
            cond_on(walk, alloc, span, c, a, b)
        }
        Node::Cast(t, e) => {
            let t = type_name(walk, alloc, t, span)?;
            let e = expression(walk, alloc, e)?;
            cast_on(walk, alloc, span, t, e)
        }
        Node::SizeofExpr(e) => {
            let e = expression(walk, alloc, e)?;
            sizeof_on(walk, alloc, span, e)
        }
        Node::SizeofName(t) => {
            let t = type_name(walk, alloc, t, span)?;
            sizeof_type_on(walk, alloc, span, t)
        }
        Node::Call(function, arguments) => {
            let listed = arguments.as_slice();
            match function_named(walk, alloc, function)? {
                Some(called) => {
                    let arguments = values(walk, alloc, listed)?;
                    call_on(walk, alloc, span, called, arguments)
                }
                None => {
                    let function = expression(walk, alloc, function)?;
                    let arguments = values(walk, alloc, listed)?;
                    Ok(not_called(walk, span, function, arguments))
                }
            }
        }
        Node::Index(a, i) => {
            let a = expression(walk, alloc, a)?;
            let i = expression(walk, alloc, i)?;
            index_on(walk, alloc, span, a, i)
        }
        Node::Member(e, name) => {
            let e = expression(walk, alloc, e)?;
            member_on(walk, alloc, span, e, name)
        }
        Node::Arrow(e, name) => {
            let e = expression(walk, alloc, e)?;
            arrow_on(walk, alloc, span, e, name)
        }
        Node::Step(step, e) => {
            let e = expression(walk, alloc, e)?;
            step_on(walk, alloc, *step, span, e)
        }
    }
}

/// The values of arguments, if all are known.
#[cycle(expression)]
#[tactic(auto, using(crate::proofs::ArmLaws::arm_no_argument))]
fn values(
    walk: &mut Walk,
    alloc: Global,
    arguments: &[Expr],
) -> Result<Option<Vec<Known>>, AllocError>
    ensures { IfOk result (λ ks. Walked (each (map argument (map spec.expression arguments.now))) walk.old walk.new (listed_items ks)) }
{
    let mut values = Some(Vec::new(alloc));
    for argument in arguments {
        let known = expression(walk, alloc, argument)?;
        values = with_value(alloc, values, known)?;
    }
    Ok(values)
}

/// The type in a cast or behind `sizeof`.
#[cycle(expression)]
fn type_name(
    walk: &mut Walk,
    alloc: Global,
    t: &CType,
    span: Span,
) -> Result<Option<Ty>, AllocError>
    ensures { IfOk result (λ k. Walked (on (spec.written t.now span) (said.whole span)) walk.old walk.new k) }
{
    let t = written(walk, alloc, t, span)?;
    Ok(whole_on(walk, span, t))
}

/// What is judged of the type of a construct. The error is want of memory.
#[cycle(expression)]
#[tactic(auto, using(crate::proofs::ArmLaws::arm_void, crate::proofs::ArmLaws::arm_int, crate::proofs::ArmLaws::arm_struct))]
pub fn written(
    walk: &mut Walk,
    alloc: Global,
    t: &CType,
    span: Span,
) -> Result<Option<Written>, AllocError>
    ensures { IfOk result (λ w. Walked (spec.written t.now span) walk.old walk.new w) }
{
    match t {
        CType::Void => Ok(Some(Written::Whole(Ty::Void))),
        CType::Int(t) => Ok(Some(Written::Whole(Ty::Int(*t)))),
        CType::Struct(tag) => struct_tag(walk, span, tag),
        CType::Pointer(t) => {
            let t = written(walk, alloc, t.get(), span)?;
            pointer_on(walk, alloc, span, t)
        }
        CType::Array(t, length) => match length {
            None => {
                let t = written(walk, alloc, t.get(), span)?;
                open_on(walk, alloc, span, t)
            }
            Some(length) => {
                let length = array_length(walk, alloc, length)?;
                let t = written(walk, alloc, t.get(), span)?;
                array_on(walk, alloc, span, length, t)
            }
        },
    }
}

/// The length of an array (C11 6.7.6.2 paragraph 1). The error is want of memory.
#[cycle(expression)]
#[tactic(auto, using(crate::proofs::ArmLaws::arm_length))]
fn array_length(walk: &mut Walk, alloc: Global, e: &Expr) -> Result<Option<u64>, AllocError>
    ensures { IfOk result (λ n. Walked (said.judged_length (spec.expression e.now)) walk.old walk.new n) }
{
    let k = expression(walk, alloc, e)?;
    Ok(length_on(walk, e, k))
}

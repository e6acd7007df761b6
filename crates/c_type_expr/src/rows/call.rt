//! Calls (C11 6.5.2.2).

ghost use Rattle.std.specs.Prelude.{◌≡◌, IfOk};
ghost use Rattle.c_type_expr.specs.Expressions.{expression};
ghost use Rattle.c_type_expr.specs.Postfix as spec;
ghost use Rattle.c_type_expr.specs.Walked.{Walked, env_of};

use crate::scopes::{Called, Meaning, Signature};
use crate::walk::Walk;
use c_ast::{Expr, Node, Span};
use c_type_base::{
    Callee, Constancy, Known, TExpr, TNode, Ty, assignable, converted, copy_ty, is_value, plain,
    texpr,
};
use sqlite_items::Items;
use std::alloc::{AllocError, Global};

/// Equal types in memory of their own.
pub fn copy_types(alloc: Global, types: &[Ty]) -> Result<Items<Ty>, AllocError>
    ensures { IfOk result (λ copied. copied ≡ types.now) }
{
    let mut copied = Items::new(alloc);
    for ty in types {
        copied.push(copy_ty(alloc, ty)?)?;
    }
    Ok(copied)
}

/// An equal signature in memory of its own.
pub fn copy_signature(alloc: Global, signature: &Signature) -> Result<Signature, AllocError>
    ensures { IfOk result (λ copied. copied ≡ signature.now) }
{
    let outcome = copy_ty(alloc, &signature.result)?;
    let params = copy_types(alloc, signature.params.as_slice())?;
    Ok(Signature {
        result: outcome,
        params,
    })
}

/// What is called, where it is a function's name.
pub fn function_named(
    walk: &Walk,
    alloc: Global,
    function: &Expr,
) -> Result<Option<Called>, AllocError>
    ensures { IfOk result (λ c. c ≡ spec.function_in (spec.meaning_by (expression function.now).name (env_of walk.now))) }
{
    let Node::Variable(name) = function.node.get() else {
        return Ok(None);
    };
    let Some(binding) = walk.scopes.find(name.as_slice()) else {
        return Ok(None);
    };
    match &binding.means {
        Meaning::Function(callee, None) => Ok(Some(Called {
            callee: *callee,
            signature: None,
        })),
        Meaning::Function(callee, Some(signature)) => Ok(Some(Called {
            callee: *callee,
            signature: Some(copy_signature(alloc, signature)?),
        })),
        _ => Ok(None),
    }
}

/// No argument is void.
pub fn all_values(arguments: &[Known]) -> bool
    ensures { result ≡ spec.all_values arguments.now }
{
    for argument in arguments {
        if !is_value(argument) {
            return false;
        }
    }
    true
}

/// Each argument that has a parameter at its place can be assigned to it.
fn all_assignable(params: &[Ty], arguments: &[Known]) -> bool
    ensures { result ≡ spec.all_assignable params.now arguments.now }
{
    let mut left = params;
    for argument in arguments {
        match left {
            [] => return true,
            [param, more @ ..] => {
                if !assignable(param, argument) {
                    return false;
                }
                left = more;
            }
        }
    }
    true
}

/// The arguments in the types of the parameters at their places.
fn passed(alloc: Global, params: &[Ty], arguments: Vec<Known>) -> Result<Items<TExpr>, AllocError>
    ensures { IfOk result (λ p. p ≡ spec.passed params.now arguments.items) }
{
    let mut passed = Items::new(alloc);
    let mut left = params;
    for argument in arguments {
        if let [param, more @ ..] = left {
            let Known {
                tree,
                lvalue: _,
                constant: _,
                fixed: _,
                path: _,
            } = converted(alloc, param, argument)?;
            passed.push(tree)?;
            left = more;
        }
    }
    Ok(passed)
}

/// The call of a function whose type is known.
fn call_known(
    alloc: Global,
    span: Span,
    callee: Callee,
    signature: Signature,
    arguments: Vec<Known>,
) -> Result<Known, AllocError>
    ensures { IfOk result (λ k. k ≡ spec.call_made span callee signature arguments.items) }
{
    let passed = passed(alloc, signature.params.as_slice(), arguments)?;
    let tree = texpr(alloc, span, signature.result, TNode::Call(callee, passed))?;
    Ok(plain(tree, Constancy::Varies))
}

/// A call of a function's name.
pub fn call_row(
    walk: &mut Walk,
    alloc: Global,
    span: Span,
    called: Called,
    arguments: Vec<Known>,
) -> Result<Option<Known>, AllocError>
    ensures { IfOk result (λ k. Walked (spec.call_row span called.callee called.signature arguments.items) walk.old walk.new k) }
{
    let Called { callee, signature } = called;
    match signature {
        None => {
            walk.ask(span, 12, all_values(arguments.as_slice()));
            Ok(None)
        }
        Some(signature) => {
            let params = signature.params.as_slice();
            let fit = all_values(arguments.as_slice())
                && all_assignable(params, arguments.as_slice());
            let same = arguments.len() == params.len();
            walk.ask_both(span, 12, fit, 14, same);
            Ok(Some(call_known(alloc, span, callee, signature, arguments)?))
        }
    }
}
